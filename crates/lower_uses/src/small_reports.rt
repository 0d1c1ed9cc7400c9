//! Small reports, and what calls answer for them.

/// A county with an election.
pub const REPORT: &str = concat!(
    r#"{"@type":"ElectionResults.ElectionReport","Status":"pre-election","GpUnit":[{"@id":"u7","@type":"ElectionResults.ReportingUnit","#,
    r#""Type":"county","ExternalIdentifier":[{"@type":"ElectionResults.ExternalIdentifier","Type":"local-level","Value":"U1"}]}],"#,
    r#""Election":[{"@type":"ElectionResults.Election","Name":"Test","Type":"general","StartDate":"2026-11-03","EndDate":"2026-11-03","#,
    r#""ElectionScopeId":"u7"}]}"#,
);

/// The same report with another `@id`, and members in another order.
pub const OTHER_SPELLING: &str = concat!(
    r#"{"Election":[{"@type":"ElectionResults.Election","ElectionScopeId":"county","EndDate":"2026-11-03","StartDate":"2026-11-03","#,
    r#""Type":"general","Name":"Test"}],"GpUnit":[{"Type":"county","@id":"county","@type":"ElectionResults.ReportingUnit","#,
    r#""ExternalIdentifier":[{"Value":"U1","Type":"local-level","@type":"ElectionResults.ExternalIdentifier"}]}],"#,
    r#""Status":"pre-election","@type":"ElectionResults.ElectionReport"}"#,
);

/// The same report with another name of the election.
pub const OTHER_NAME: &str = concat!(
    r#"{"@type":"ElectionResults.ElectionReport","Status":"pre-election","GpUnit":[{"@id":"u7","@type":"ElectionResults.ReportingUnit","#,
    r#""Type":"county","ExternalIdentifier":[{"@type":"ElectionResults.ExternalIdentifier","Type":"local-level","Value":"U1"}]}],"#,
    r#""Election":[{"@type":"ElectionResults.Election","Name":"Other","Type":"general","StartDate":"2026-11-03","EndDate":"2026-11-03","#,
    r#""ElectionScopeId":"u7"}]}"#,
);

/// A report with no member but its class.
pub const BARE: &str = r#"{"@type":"ElectionResults.ElectionReport"}"#;

/// The canonical bytes of `REPORT`.
pub const CANONICAL: &str = concat!(
    r#"{"@type":"ElectionResults.ElectionReport","Election":[{"@type":"ElectionResults.Election","ElectionScopeId":"gp1","#,
    r#""EndDate":"2026-11-03","Name":"Test","StartDate":"2026-11-03","Type":"general"}],"Format":"summary-contest","#,
    r#""GeneratedDate":"2000-01-01T00:00:00Z","GpUnit":[{"@id":"gp1","@type":"ElectionResults.ReportingUnit","#,
    r#""ExternalIdentifier":[{"@type":"ElectionResults.ExternalIdentifier","Type":"local-level","Value":"U1"}],"Type":"county"}],"#,
    r#""Issuer":"canonical","IssuerAbbreviation":"canonical","SequenceEnd":1,"SequenceStart":1,"Status":"pre-election","#,
    r#""VendorApplicationId":"canonical"}"#,
);

/// A county with an election that has a key, a candidate, a contest with two selections, and a ballot that lists one of them.
pub const BALLOT: &str = concat!(
    r#"{"@type":"ElectionResults.ElectionReport","Status":"pre-election","GpUnit":[{"@id":"u7","@type":"ElectionResults.ReportingUnit","#,
    r#""Type":"county","ExternalIdentifier":[{"@type":"ElectionResults.ExternalIdentifier","Type":"fips","Value":"20"}]}],"#,
    r#""Election":[{"@type":"ElectionResults.Election","Name":"Test","Type":"general","StartDate":"2026-11-03","EndDate":"2026-11-03","#,
    r#""ElectionScopeId":"u7","ExternalIdentifier":[{"@type":"ElectionResults.ExternalIdentifier","Type":"local-level","Value":"E1"}],"#,
    r#""Candidate":[{"@id":"k1","@type":"ElectionResults.Candidate","BallotName":"Ann","#,
    r#""ExternalIdentifier":[{"@type":"ElectionResults.ExternalIdentifier","Type":"local-level","Value":"K1"}]}],"#,
    r#""Contest":[{"@id":"c1","@type":"ElectionResults.CandidateContest","Name":"Mayor","ElectionDistrictId":"u7","VotesAllowed":1,"#,
    r#""ExternalIdentifier":[{"@type":"ElectionResults.ExternalIdentifier","Type":"local-level","Value":"C1"}],"#,
    r#""ContestSelection":[{"@id":"s2","@type":"ElectionResults.CandidateSelection","IsWriteIn":true},{"@id":"s1","#,
    r#""@type":"ElectionResults.CandidateSelection","CandidateIds":["k1"]}]}],"BallotStyle":[{"@type":"ElectionResults.BallotStyle","#,
    r#""GpUnitIds":["u7"],"ExternalIdentifier":[{"@type":"ElectionResults.ExternalIdentifier","Type":"local-level","Value":"B1"}],"#,
    r#""OrderedContent":[{"@type":"ElectionResults.OrderedContest","ContestId":"c1","OrderedContestSelectionIds":["s1"]}]}]}]}"#,
);

/// The same as `BALLOT`, and its ballot lists no selections.
pub const UNLISTED: &str = concat!(
    r#"{"@type":"ElectionResults.ElectionReport","Status":"pre-election","GpUnit":[{"@id":"u7","@type":"ElectionResults.ReportingUnit","#,
    r#""Type":"county","ExternalIdentifier":[{"@type":"ElectionResults.ExternalIdentifier","Type":"fips","Value":"20"}]}],"#,
    r#""Election":[{"@type":"ElectionResults.Election","Name":"Test","Type":"general","StartDate":"2026-11-03","EndDate":"2026-11-03","#,
    r#""ElectionScopeId":"u7","ExternalIdentifier":[{"@type":"ElectionResults.ExternalIdentifier","Type":"local-level","Value":"E1"}],"#,
    r#""Candidate":[{"@id":"k1","@type":"ElectionResults.Candidate","BallotName":"Ann","#,
    r#""ExternalIdentifier":[{"@type":"ElectionResults.ExternalIdentifier","Type":"local-level","Value":"K1"}]}],"#,
    r#""Contest":[{"@id":"c1","@type":"ElectionResults.CandidateContest","Name":"Mayor","ElectionDistrictId":"u7","VotesAllowed":1,"#,
    r#""ExternalIdentifier":[{"@type":"ElectionResults.ExternalIdentifier","Type":"local-level","Value":"C1"}],"#,
    r#""ContestSelection":[{"@id":"s2","@type":"ElectionResults.CandidateSelection","IsWriteIn":true},{"@id":"s1","#,
    r#""@type":"ElectionResults.CandidateSelection","CandidateIds":["k1"]}]}],"BallotStyle":[{"@type":"ElectionResults.BallotStyle","#,
    r#""GpUnitIds":["u7"],"ExternalIdentifier":[{"@type":"ElectionResults.ExternalIdentifier","Type":"local-level","Value":"B1"}],"#,
    r#""OrderedContent":[{"@type":"ElectionResults.OrderedContest","ContestId":"c1"}]}]}]}"#,
);

/// The heads of the ballots of `BALLOT`: one style, with one line.
pub const HEADS: &str =
    r#"[{"at":0,"key":["local-level","","B1"],"lines":1,"parties":[],"units":[["fips","","20"]]}]"#;

/// The style whose ballots differ in `BALLOT` and `UNLISTED`.
pub const DIFFERS: &str = concat!(
    r#"[{"below":"  changed contest [\"local-level\",\"\",\"C1\"]\n    added selection [\"ElectionResults.CandidateSelection\","#,
    r#"[],true,null,null,null]\n","key":["local-level","","B1"],"left":0,"right":0}]"#,
);

/// The lines for this style: a ballot that lists no selections has all of the contest.
pub const DIFFERENCE_LINES: &str = concat!(
    "ballot [\"local-level\",\"\",\"B1\"]: differs\n  changed contest [\"local-level\",\"\",\"C1\"]\n",
    "    added selection [\"ElectionResults.CandidateSelection\",[],true,null,null,null]\n",
);

/// The ballot of `BALLOT` beside itself.
pub const BESIDE: &str = concat!(
    r#"{"left":[{"depth":0,"listed":true,"selections":[["ElectionResults.CandidateSelection",[["local-level","","#,
    r#""K1"]],false,null,null,null]],"what":["contest",["local-level","","C1"]]}],"right":[{"depth":0,"listed":true,"#,
    r#""selections":[["ElectionResults.CandidateSelection",[["local-level","","K1"]],false,null,null,null]],"what":["contest","#,
    r#"["local-level","","C1"]]}],"rows":[{"how":"both","left":0,"right":0,"selections":[{"how":"both","#,
    r#""name":["ElectionResults.CandidateSelection",[["local-level","","K1"]],false,null,null,null]}]}]}"#,
);
