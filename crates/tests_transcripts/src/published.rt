//! The publications of a notice, and of an amended one.

/// To be played after NOTICE. The first release of a notice has its planning and its tender, in a package that is published at its date. The record has the
/// releases and their compiled release, which is the first release itself except for its head. Anyone may ask for them.
pub static PUBLISHED: &str = r#"
at 2026-02-01T09:00:00Z public GET /notices/N1/releases
= 200 {"publishedDate":"2026-02-01T09:00:00Z","publisher":{"name":"City Office"},"releases":[
> {"buyer":{"id":"B-city","name":"City Office"},"date":"2026-02-01T09:00:00Z","id":"ocds-a1b2c3-N1-0001","initiationType":"tender",
> "language":"en","ocid":"ocds-a1b2c3-N1","parties":[{"id":"B-city","name":"City Office","roles":["buyer","procuringEntity"]}],
> "planning":{"budget":{"amount":{"amount":600,"currency":"EUR"}}},"tag":["planning","tender"],"tender":{"awardCriteria":"priceOnly",
> "id":"N1","items":[{"description":"Paving","id":"L1/I1","quantity":3,"relatedLot":"L1"}],
> "lots":[{"id":"L1","status":"active","title":"North","value":{"amount":600,"currency":"EUR"}}],"procurementMethod":"open",
> "procuringEntity":{"id":"B-city","name":"City Office"},"status":"active","submissionMethod":["electronicSubmission"],
> "tenderPeriod":{"endDate":"2026-03-01T12:00:00Z","startDate":"2026-02-01T09:00:00Z"},"title":"Road repair",
> "value":{"amount":600,"currency":"EUR"}}}],"uri":"http://127.0.0.1:8080/notices/N1/releases","version":"1.1"}

at 2026-02-01T09:00:00Z T1 GET /notices/N1/record
= 200 {"publishedDate":"2026-02-01T09:00:00Z","publisher":{"name":"City Office"},"records":[{
> "compiledRelease":{"buyer":{"id":"B-city","name":"City Office"},"date":"2026-02-01T09:00:00Z","id":"ocds-a1b2c3-N1-2026-02-01T09:00:00Z",
> "initiationType":"tender","language":"en","ocid":"ocds-a1b2c3-N1",
> "parties":[{"id":"B-city","name":"City Office","roles":["buyer","procuringEntity"]}],
> "planning":{"budget":{"amount":{"amount":600,"currency":"EUR"}}},"tag":["compiled"],"tender":{"awardCriteria":"priceOnly","id":"N1",
> "items":[{"description":"Paving","id":"L1/I1","quantity":3,"relatedLot":"L1"}],
> "lots":[{"id":"L1","status":"active","title":"North","value":{"amount":600,"currency":"EUR"}}],"procurementMethod":"open",
> "procuringEntity":{"id":"B-city","name":"City Office"},"status":"active","submissionMethod":["electronicSubmission"],
> "tenderPeriod":{"endDate":"2026-03-01T12:00:00Z","startDate":"2026-02-01T09:00:00Z"},"title":"Road repair",
> "value":{"amount":600,"currency":"EUR"}}},"ocid":"ocds-a1b2c3-N1","releases":[
> {"buyer":{"id":"B-city","name":"City Office"},"date":"2026-02-01T09:00:00Z","id":"ocds-a1b2c3-N1-0001","initiationType":"tender",
> "language":"en","ocid":"ocds-a1b2c3-N1","parties":[{"id":"B-city","name":"City Office","roles":["buyer","procuringEntity"]}],
> "planning":{"budget":{"amount":{"amount":600,"currency":"EUR"}}},"tag":["planning","tender"],"tender":{"awardCriteria":"priceOnly",
> "id":"N1","items":[{"description":"Paving","id":"L1/I1","quantity":3,"relatedLot":"L1"}],
> "lots":[{"id":"L1","status":"active","title":"North","value":{"amount":600,"currency":"EUR"}}],"procurementMethod":"open",
> "procuringEntity":{"id":"B-city","name":"City Office"},"status":"active","submissionMethod":["electronicSubmission"],
> "tenderPeriod":{"endDate":"2026-03-01T12:00:00Z","startDate":"2026-02-01T09:00:00Z"},"title":"Road repair",
> "value":{"amount":600,"currency":"EUR"}}}]}],"uri":"http://127.0.0.1:8080/notices/N1/record","version":"1.1"}
"#;

/// To be played after NOTICE. The deadline is moved. The second release has the new deadline and the rationale. The tender of the record has the amendment, the
/// new end of its period, and everything else as before.
pub static AMENDED: &str = r#"
at 2026-02-10T09:00:00Z clerk POST /notices/N1/amend
> {"deadline":"2026-03-02T12:00:00Z","rationale":"More time"}
= 200 {"moment":"2026-02-10T09:00:00Z","notice":"N1","release":2}

at 2026-02-10T09:00:00Z clerk GET /notices/N1/releases
= 200 {"publishedDate":"2026-02-10T09:00:00Z","publisher":{"name":"City Office"},"releases":[
> {"buyer":{"id":"B-city","name":"City Office"},"date":"2026-02-01T09:00:00Z","id":"ocds-a1b2c3-N1-0001","initiationType":"tender",
> "language":"en","ocid":"ocds-a1b2c3-N1","parties":[{"id":"B-city","name":"City Office","roles":["buyer","procuringEntity"]}],
> "planning":{"budget":{"amount":{"amount":600,"currency":"EUR"}}},"tag":["planning","tender"],"tender":{"awardCriteria":"priceOnly",
> "id":"N1","items":[{"description":"Paving","id":"L1/I1","quantity":3,"relatedLot":"L1"}],
> "lots":[{"id":"L1","status":"active","title":"North","value":{"amount":600,"currency":"EUR"}}],"procurementMethod":"open",
> "procuringEntity":{"id":"B-city","name":"City Office"},"status":"active","submissionMethod":["electronicSubmission"],
> "tenderPeriod":{"endDate":"2026-03-01T12:00:00Z","startDate":"2026-02-01T09:00:00Z"},"title":"Road repair",
> "value":{"amount":600,"currency":"EUR"}}},
> {"buyer":{"id":"B-city","name":"City Office"},"date":"2026-02-10T09:00:00Z","id":"ocds-a1b2c3-N1-0002","initiationType":"tender",
> "language":"en","ocid":"ocds-a1b2c3-N1","tag":["tenderAmendment"],"tender":{"amendments":[{"date":"2026-02-10T09:00:00Z",
> "description":"Deadline moved from 2026-03-01T12:00:00Z to 2026-03-02T12:00:00Z","id":"0002","rationale":"More time"}],"id":"N1",
> "tenderPeriod":{"endDate":"2026-03-02T12:00:00Z"}}}],"uri":"http://127.0.0.1:8080/notices/N1/releases","version":"1.1"}

at 2026-02-10T09:00:00Z public GET /notices/N1/record
= 200 {"publishedDate":"2026-02-10T09:00:00Z","publisher":{"name":"City Office"},"records":[{
> "compiledRelease":{"buyer":{"id":"B-city","name":"City Office"},"date":"2026-02-10T09:00:00Z","id":"ocds-a1b2c3-N1-2026-02-10T09:00:00Z",
> "initiationType":"tender","language":"en","ocid":"ocds-a1b2c3-N1",
> "parties":[{"id":"B-city","name":"City Office","roles":["buyer","procuringEntity"]}],
> "planning":{"budget":{"amount":{"amount":600,"currency":"EUR"}}},"tag":["compiled"],"tender":{"amendments":[{
> "date":"2026-02-10T09:00:00Z","description":"Deadline moved from 2026-03-01T12:00:00Z to 2026-03-02T12:00:00Z","id":"0002",
> "rationale":"More time"}],"awardCriteria":"priceOnly","id":"N1",
> "items":[{"description":"Paving","id":"L1/I1","quantity":3,"relatedLot":"L1"}],
> "lots":[{"id":"L1","status":"active","title":"North","value":{"amount":600,"currency":"EUR"}}],"procurementMethod":"open",
> "procuringEntity":{"id":"B-city","name":"City Office"},"status":"active","submissionMethod":["electronicSubmission"],
> "tenderPeriod":{"endDate":"2026-03-02T12:00:00Z","startDate":"2026-02-01T09:00:00Z"},"title":"Road repair",
> "value":{"amount":600,"currency":"EUR"}}},"ocid":"ocds-a1b2c3-N1","releases":[
> {"buyer":{"id":"B-city","name":"City Office"},"date":"2026-02-01T09:00:00Z","id":"ocds-a1b2c3-N1-0001","initiationType":"tender",
> "language":"en","ocid":"ocds-a1b2c3-N1","parties":[{"id":"B-city","name":"City Office","roles":["buyer","procuringEntity"]}],
> "planning":{"budget":{"amount":{"amount":600,"currency":"EUR"}}},"tag":["planning","tender"],"tender":{"awardCriteria":"priceOnly",
> "id":"N1","items":[{"description":"Paving","id":"L1/I1","quantity":3,"relatedLot":"L1"}],
> "lots":[{"id":"L1","status":"active","title":"North","value":{"amount":600,"currency":"EUR"}}],"procurementMethod":"open",
> "procuringEntity":{"id":"B-city","name":"City Office"},"status":"active","submissionMethod":["electronicSubmission"],
> "tenderPeriod":{"endDate":"2026-03-01T12:00:00Z","startDate":"2026-02-01T09:00:00Z"},"title":"Road repair",
> "value":{"amount":600,"currency":"EUR"}}},
> {"buyer":{"id":"B-city","name":"City Office"},"date":"2026-02-10T09:00:00Z","id":"ocds-a1b2c3-N1-0002","initiationType":"tender",
> "language":"en","ocid":"ocds-a1b2c3-N1","tag":["tenderAmendment"],"tender":{"amendments":[{"date":"2026-02-10T09:00:00Z",
> "description":"Deadline moved from 2026-03-01T12:00:00Z to 2026-03-02T12:00:00Z","id":"0002","rationale":"More time"}],"id":"N1",
> "tenderPeriod":{"endDate":"2026-03-02T12:00:00Z"}}}]}],"uri":"http://127.0.0.1:8080/notices/N1/record","version":"1.1"}
"#;
