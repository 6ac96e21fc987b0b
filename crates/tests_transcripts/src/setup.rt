//! The beginnings of most transcripts.

/// The line 1000, with an appropriation of 1000.
pub static MONEY: &str = r#"
at 2026-01-05T09:00:00Z clerk POST /budget/B1
| line,kind,amount,title
| 1000,add,1000,Roads
= 200 {"batch":"B1","moment":"2026-01-05T09:00:00Z","rows":1}
"#;

/// Three tenderers.
pub static TENDERERS: &str = r#"
at 2026-01-05T09:00:00Z clerk POST /tenderers/T1
> {"name":"Alpha","address":"High Street 1","key":"2cf24dba5fb0a30e26e83b2ac5b9e29e1b161e5c1fa7425e73043362938b9824"}
= 200 {"moment":"2026-01-05T09:00:00Z","tenderer":"T1"}

at 2026-01-05T09:00:00Z clerk POST /tenderers/T2
> {"name":"Beta","address":"Low Street 2","key":"2cf24dba5fb0a30e26e83b2ac5b9e29e1b161e5c1fa7425e73043362938b9824"}
= 200 {"moment":"2026-01-05T09:00:00Z","tenderer":"T2"}

at 2026-01-05T09:00:00Z clerk POST /tenderers/T3
> {"name":"Gamma","address":"Mill Lane 3","key":"2cf24dba5fb0a30e26e83b2ac5b9e29e1b161e5c1fa7425e73043362938b9824"}
= 200 {"moment":"2026-01-05T09:00:00Z","tenderer":"T3"}
"#;

/// A notice with one lot, which asks for three pieces of one item.
pub static NOTICE: &str = r#"
at 2026-02-01T09:00:00Z clerk POST /notices/N1
> {"title":"Road repair","deadline":"2026-03-01T12:00:00Z","validity_days":90,"standstill_days":10,"criteria":"price","lots":[
> {"id":"L1","title":"North","line":"1000","estimate":600,"security":50,"items":[{"id":"I1","title":"Paving","quantity":3}]}]}
= 200 {"moment":"2026-02-01T09:00:00Z","notice":"N1","release":1}
"#;
