//! The life of a procurement, in pieces: after each command that moves money of the line 1000 there is a query of the line.

pub(crate) static UNUSED_LINE: &str = r#"
at 2026-01-05T09:00:00Z public GET /lines/1000
= 200 {"appropriation":1000,"contracted":0,"free":1000,"line":"1000","paid":0,"reserved":0,"title":"Roads"}
"#;

pub(crate) static PUBLISHED_LINE: &str = r#"
at 2026-02-01T09:00:00Z public GET /lines/1000
= 200 {"appropriation":1000,"contracted":0,"free":400,"line":"1000","paid":0,"reserved":600,"title":"Roads"}
"#;

pub(crate) static AWARDED: &str = r#"
at 2026-02-10T09:00:00Z clerk POST /notices/N1/amend
> {"deadline":"2026-03-01T12:00:00Z","rationale":"Once more"}
= 200 {"moment":"2026-02-10T09:00:00Z","notice":"N1","release":2}

at 2026-02-10T10:00:00Z T1 POST /notices/N1/lots/L1/tenders?security=G1&amount=50
| item,quantity,unit,total
| I1,3,100,300
| TOTAL,,,300
= 200 {"digest":"f02c05071406bc830a41bcac9191754817dd8d4d25abd508e569532854c8be66","moment":"2026-02-10T10:00:00Z","receipt":1,"security":1,"state":"sealed"}

at 2026-02-10T10:00:00Z T2 POST /notices/N1/lots/L1/tenders?security=G2&amount=50
> abc
= 200 {"digest":"ba7816bf8f01cfea414140de5dae2223b00361a396177a9cb410ff61f20015ad","moment":"2026-02-10T10:00:00Z","receipt":2,"security":2,"state":"sealed"}

at 2026-02-10T10:00:00Z T2 POST /tenders/2/modify
| item,quantity,unit,total
| I1,3,150,450
| TOTAL,,,450
= 200 {"digest":"b6601bb9c262821ff09f103854d458ee0ca46264e9782d54a50b44e3ef814158","moment":"2026-02-10T10:00:00Z","receipt":3,"security":2,"state":"sealed"}

at 2026-02-10T10:00:00Z T3 POST /notices/N1/lots/L1/tenders?security=G3&amount=50
> abc
= 200 {"digest":"ba7816bf8f01cfea414140de5dae2223b00361a396177a9cb410ff61f20015ad","moment":"2026-02-10T10:00:00Z","receipt":4,"security":4,"state":"sealed"}

at 2026-02-10T10:00:00Z T3 POST /tenders/4/withdraw
= 200 {"moment":"2026-02-10T10:00:00Z","receipt":4,"state":"withdrawn"}

at 2026-03-01T12:00:00Z clerk POST /notices/N1/open
= 200 {"moment":"2026-03-01T12:00:00Z","notice":"N1","opened":2,"release":3}

at 2026-03-01T12:00:00Z public GET /notices/N1/minutes
= 200 text
| MINUTES\tN1\tRoad repair
| deadline\t2026-03-01T12:00:00Z
| opened\t2026-03-01T12:00:00Z
| lot\tL1\tNorth
| tender\t1\tT1\tAlpha\tHigh Street 1\tpriced\t300\t300\t0
| tender\t3\tT2\tBeta\tLow Street 2\tpriced\t450\t450\t0
| END

at 2026-03-01T12:00:00Z clerk GET /notices/N1/register
= 200 text
| REGISTER\tN1
| 1\tL1\t2026-02-10T10:00:00Z\t50\topened
| 2\tL1\t2026-02-10T10:00:00Z\t3\twithdrawn
| 3\tL1\t2026-02-10T10:00:00Z\t50\topened
| 4\tL1\t2026-02-10T10:00:00Z\t3\twithdrawn

at 2026-03-02T09:00:00Z clerk POST /tenders/1/examine
> {"responsive":true}
= 200 {"moment":"2026-03-02T09:00:00Z","responsive":true,"tender":1}

at 2026-03-02T09:00:00Z clerk POST /tenders/3/examine
> {"responsive":true}
= 200 {"moment":"2026-03-02T09:00:00Z","responsive":true,"tender":3}

at 2026-03-02T10:00:00Z clerk POST /notices/N1/lots/L1/award
= 200 {"award":1,"lot":"L1","moment":"2026-03-02T10:00:00Z","price":300,"release":4,"tender":1}
"#;

pub(crate) static AWARDED_LINE: &str = r#"
at 2026-03-02T10:00:00Z public GET /lines/1000
= 200 {"appropriation":1000,"contracted":0,"free":700,"line":"1000","paid":0,"reserved":300,"title":"Roads"}
"#;

pub(crate) static AWARDED_AGAIN: &str = r#"
at 2026-03-12T10:00:00Z clerk POST /awards/1/fail
= 200 {"award":1,"moment":"2026-03-12T10:00:00Z","release":5}

at 2026-03-12T10:00:00Z clerk POST /notices/N1/lots/L1/award
= 200 {"award":2,"lot":"L1","moment":"2026-03-12T10:00:00Z","price":450,"release":6,"tender":3}
"#;

pub(crate) static AWARDED_AGAIN_LINE: &str = r#"
at 2026-03-12T10:00:00Z public GET /lines/1000
= 200 {"appropriation":1000,"contracted":0,"free":550,"line":"1000","paid":0,"reserved":450,"title":"Roads"}
"#;

pub(crate) static SIGNED: &str = r#"
at 2026-03-22T10:00:00Z clerk POST /awards/2/sign
= 200 {"contract":2,"moment":"2026-03-22T10:00:00Z","release":7}
"#;

pub(crate) static SIGNED_LINE: &str = r#"
at 2026-03-22T10:00:00Z public GET /lines/1000
= 200 {"appropriation":1000,"contracted":450,"free":550,"line":"1000","paid":0,"reserved":0,"title":"Roads"}
"#;

pub(crate) static RAISED: &str = r#"
at 2026-04-01T09:00:00Z clerk POST /contracts/2/amend
> {"id":"E1","kind":"raise","amount":50,"rationale":"More paving"}
= 200 {"contract":2,"moment":"2026-04-01T09:00:00Z","outstanding":500,"release":8}
"#;

pub(crate) static RAISED_LINE: &str = r#"
at 2026-04-01T09:00:00Z public GET /lines/1000
= 200 {"appropriation":1000,"contracted":500,"free":500,"line":"1000","paid":0,"reserved":0,"title":"Roads"}
"#;

pub(crate) static PAID: &str = r#"
at 2026-04-01T09:00:00Z clerk POST /contracts/2/pay
> {"id":"P1","amount":200}
= 200 {"contract":2,"moment":"2026-04-01T09:00:00Z","outstanding":300,"release":9}
"#;

pub(crate) static PAID_LINE: &str = r#"
at 2026-04-01T09:00:00Z public GET /lines/1000
= 200 {"appropriation":1000,"contracted":300,"free":500,"line":"1000","paid":200,"reserved":0,"title":"Roads"}
"#;

pub(crate) static ENDED: &str = r#"
at 2026-05-01T09:00:00Z clerk POST /contracts/2/end
> {"how":"regular"}
= 200 {"contract":2,"moment":"2026-05-01T09:00:00Z","outstanding":0,"release":10}
"#;

pub(crate) static ENDED_LINE: &str = r#"
at 2026-05-01T09:00:00Z public GET /lines/1000
= 200 {"appropriation":1000,"contracted":0,"free":800,"line":"1000","paid":200,"reserved":0,"title":"Roads"}
"#;

// Other queries after the end.
pub(crate) static SEEN: &str = r#"
at 2026-05-01T09:00:00Z T2 GET /tenders/3
= 200 {"digest":"b6601bb9c262821ff09f103854d458ee0ca46264e9782d54a50b44e3ef814158","length":50,
> "lot":"L1","moment":"2026-02-10T10:00:00Z","notice":"N1","receipt":3,"security":2,"state":"opened"}

at 2026-05-01T09:00:00Z T1 GET /securities/1
= 200 {"amount":50,"reference":"G1","security":1,"state":"forfeited","tenderer":"T1"}

at 2026-05-01T09:00:00Z public GET /ledger
= 200 text
| LEDGER
| line\tappropriation\tfree\treserved\tcontracted\tpaid
| 1000\t1000\t800\t0\t0\t200
"#;

// A cancelled notice with an award.
pub(crate) static CANCELLED: &str = r#"
at 2026-02-10T10:00:00Z T1 POST /notices/N1/lots/L1/tenders?security=G1&amount=50
| item,quantity,unit,total
| I1,3,100,300
| TOTAL,,,300
= 200 {"digest":"f02c05071406bc830a41bcac9191754817dd8d4d25abd508e569532854c8be66","moment":"2026-02-10T10:00:00Z","receipt":1,"security":1,"state":"sealed"}

at 2026-03-01T12:00:00Z clerk POST /notices/N1/open
= 200 {"moment":"2026-03-01T12:00:00Z","notice":"N1","opened":1,"release":2}

at 2026-03-02T09:00:00Z clerk POST /tenders/1/examine
> {"responsive":true}
= 200 {"moment":"2026-03-02T09:00:00Z","responsive":true,"tender":1}

at 2026-03-02T10:00:00Z clerk POST /notices/N1/lots/L1/award
= 200 {"award":1,"lot":"L1","moment":"2026-03-02T10:00:00Z","price":300,"release":3,"tender":1}

at 2026-03-03T10:00:00Z clerk POST /notices/N1/cancel
> {"rationale":"No need"}
= 200 {"moment":"2026-03-03T10:00:00Z","notice":"N1","release":4}
"#;

pub(crate) static CANCELLED_LINE: &str = r#"
at 2026-03-03T10:00:00Z public GET /lines/1000
= 200 {"appropriation":1000,"contracted":0,"free":1000,"line":"1000","paid":0,"reserved":0,"title":"Roads"}
"#;

pub(crate) static CANCELLED_LEDGER: &str = r#"
at 2026-03-03T10:00:00Z public GET /ledger
= 200 text
| LEDGER
| line\tappropriation\tfree\treserved\tcontracted\tpaid
| 1000\t1000\t1000\t0\t0\t0
"#;
