//! A procurement from the registration of its tenderer to the end of its contract, each command once.

/// A tenderer is registered and two lines are imported. A notice is published that allows late withdrawals and asks for a performance security. A tender is
/// submitted, opened, examined and awarded. A contract is signed with that security, paid and ended.
pub(crate) static LIFE: &str = r#"
at 2026-01-05T09:00:00Z clerk POST /tenderers/T1
> {"name":"Alpha","address":"High Street 1","key":"2cf24dba5fb0a30e26e83b2ac5b9e29e1b161e5c1fa7425e73043362938b9824"}
= 200 {"moment":"2026-01-05T09:00:00Z","tenderer":"T1"}

at 2026-01-05T09:00:00Z clerk POST /budget/B1
| line,kind,amount,title
| 1000,add,1000,Roads
| 2000,add,500,Bridges
= 200 {"batch":"B1","moment":"2026-01-05T09:00:00Z","rows":2}

at 2026-02-01T09:00:00Z clerk POST /notices/N1
> {"title":"Road repair","deadline":"2026-03-01T12:00:00Z","validity_days":90,"standstill_days":10,"criteria":"price","late_withdrawal":"forfeits","performance":70,"lots":[
> {"id":"L1","title":"North","line":"1000","estimate":700,"security":50,"items":[{"id":"I1","title":"Paving","quantity":1}]}]}
= 200 {"moment":"2026-02-01T09:00:00Z","notice":"N1","release":1}

at 2026-02-02T10:00:00Z T1 POST /notices/N1/lots/L1/tenders?security=G1&amount=50
| item,quantity,unit,total
| I1,1,700,700
| TOTAL,,,700
= 200 {"digest":"a4bd73ea2d0acdaab18c42e0496d2ba7891969b73b248d1974b8a8695dc113a5","moment":"2026-02-02T10:00:00Z","receipt":1,"security":1,"state":"sealed"}

at 2026-03-01T12:00:00Z clerk POST /notices/N1/open
= 200 {"moment":"2026-03-01T12:00:00Z","notice":"N1","opened":1,"release":2}

at 2026-03-01T13:00:00Z clerk POST /tenders/1/examine
> {"responsive":true}
= 200 {"moment":"2026-03-01T13:00:00Z","responsive":true,"tender":1}

at 2026-03-02T10:00:00Z clerk POST /notices/N1/lots/L1/award
= 200 {"award":1,"lot":"L1","moment":"2026-03-02T10:00:00Z","price":700,"release":3,"tender":1}

at 2026-03-12T10:00:00Z clerk POST /awards/1/sign
> {"security":"P1","amount":70}
= 200 {"contract":1,"moment":"2026-03-12T10:00:00Z","release":4}

at 2026-04-02T09:00:00Z clerk POST /contracts/1/pay
> {"id":"P1","amount":300}
= 200 {"contract":1,"moment":"2026-04-02T09:00:00Z","outstanding":400,"release":5}

at 2026-05-01T09:00:00Z clerk POST /contracts/1/end
> {"how":"regular"}
= 200 {"contract":1,"moment":"2026-05-01T09:00:00Z","outstanding":0,"release":6}
"#;
