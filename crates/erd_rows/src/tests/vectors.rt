//! Reports that the tests share. `examples/` has the same as files.
use crate::tests::edits::Edit;

/// A report with one unit.
pub const ONE_UNIT: &str = concat!(
    "{\"@type\":\"ElectionResults.ElectionReport\",\"Status\":\"pre-election\",\"GpUnit\":[{\"@id\":\"u7\",",
    "\"@type\":\"ElectionResults.ReportingUnit\",\"Type\":\"county\",",
    "\"ExternalIdentifier\":[{\"@type\":\"ElectionResults.ExternalIdentifier\",\"Type\":\"local-level\",\"Value\":\"U1\"}]}],",
    "\"Election\":[{\"@type\":\"ElectionResults.Election\",\"Name\":\"Test\",\"Type\":\"general\",\"StartDate\":\"2026-11-03\",",
    "\"EndDate\":\"2026-11-03\",\"ElectionScopeId\":\"u7\"}]}",
);

/// The canonical form of `ONE_UNIT`.
pub const ONE_UNIT_CANONICAL: &str = concat!(
    "{\"@type\":\"ElectionResults.ElectionReport\",\"Election\":[{\"@type\":\"ElectionResults.Election\",\"ElectionScopeId\":\"gp1\",",
    "\"EndDate\":\"2026-11-03\",\"Name\":\"Test\",\"StartDate\":\"2026-11-03\",\"Type\":\"general\"}],\"Format\":\"summary-contest\",",
    "\"GeneratedDate\":\"2000-01-01T00:00:00Z\",\"GpUnit\":[{\"@id\":\"gp1\",\"@type\":\"ElectionResults.ReportingUnit\",",
    "\"ExternalIdentifier\":[{\"@type\":\"ElectionResults.ExternalIdentifier\",\"Type\":\"local-level\",\"Value\":\"U1\"}],",
    "\"Type\":\"county\"}],\"Issuer\":\"canonical\",\"IssuerAbbreviation\":\"canonical\",\"SequenceEnd\":1,\"SequenceStart\":1,",
    "\"Status\":\"pre-election\",\"VendorApplicationId\":\"canonical\"}",
);

/// A small ballot: two contests, with a ballot style.
pub const SMALL_BALLOT: &str = concat!(
    "{\"Status\":\"pre-election\",\"@type\":\"ElectionResults.ElectionReport\",\"GeneratedDate\":\"2026-08-01T09:00:00Z\",",
    "\"Issuer\":\"Vendor A\",\"GpUnit\":[{\"@id\":\"a2\",\"@type\":\"ElectionResults.ReportingUnit\",",
    "\"ExternalIdentifier\":[{\"@type\":\"ElectionResults.ExternalIdentifier\",\"Type\":\"local-level\",\"Value\":\"U2\"}],",
    "\"Type\":\"precinct\"},{\"@id\":\"a1\",\"@type\":\"ElectionResults.ReportingUnit\",",
    "\"ExternalIdentifier\":[{\"@type\":\"ElectionResults.ExternalIdentifier\",\"Type\":\"local-level\",\"Value\":\"U1\"}],",
    "\"Type\":\"county\",\"ComposingGpUnitIds\":[\"a2\"]}],\"Party\":[{\"@id\":\"a3\",\"@type\":\"ElectionResults.Party\",",
    "\"ExternalIdentifier\":[{\"@type\":\"ElectionResults.ExternalIdentifier\",\"Type\":\"local-level\",\"Value\":\"P1\"}],",
    "\"Name\":\"Blue\"}],\"Person\":[{\"@id\":\"a16\",\"@type\":\"ElectionResults.Person\",",
    "\"ExternalIdentifier\":[{\"@type\":\"ElectionResults.ExternalIdentifier\",\"Type\":\"local-level\",\"Value\":\"Q1\"}],",
    "\"FullName\":\"Ann Ash\"}],\"Office\":[{\"@id\":\"a17\",\"@type\":\"ElectionResults.Office\",",
    "\"ExternalIdentifier\":[{\"@type\":\"ElectionResults.ExternalIdentifier\",\"Type\":\"local-level\",\"Value\":\"O1\"}],",
    "\"Name\":\"Governor\"}],\"Header\":[{\"@id\":\"a4\",\"@type\":\"ElectionResults.Header\",",
    "\"ExternalIdentifier\":[{\"@type\":\"ElectionResults.ExternalIdentifier\",\"Type\":\"local-level\",\"Value\":\"H1\"}],",
    "\"Name\":\"State\"}],\"Election\":[{\"@type\":\"ElectionResults.Election\",\"Name\":\"Test\",\"Type\":\"general\",",
    "\"StartDate\":\"2026-11-03\",\"EndDate\":\"2026-11-03\",\"ElectionScopeId\":\"a1\",\"Candidate\":[{\"@id\":\"a7\",",
    "\"@type\":\"ElectionResults.Candidate\",\"ExternalIdentifier\":[{\"@type\":\"ElectionResults.ExternalIdentifier\",",
    "\"Type\":\"local-level\",\"Value\":\"K3\"}],\"BallotName\":\"Cy\",\"PartyId\":\"a3\"},{\"@id\":\"a5\",",
    "\"@type\":\"ElectionResults.Candidate\",\"ExternalIdentifier\":[{\"@type\":\"ElectionResults.ExternalIdentifier\",",
    "\"Type\":\"local-level\",\"Value\":\"K1\"}],\"BallotName\":\"Ann\",\"PersonId\":\"a16\"},{\"@id\":\"a6\",",
    "\"@type\":\"ElectionResults.Candidate\",\"ExternalIdentifier\":[{\"@type\":\"ElectionResults.ExternalIdentifier\",",
    "\"Type\":\"local-level\",\"Value\":\"K2\"}],\"BallotName\":\"Bo\"}],\"Contest\":[{\"@id\":\"a8\",",
    "\"@type\":\"ElectionResults.CandidateContest\",\"ExternalIdentifier\":[{\"@type\":\"ElectionResults.ExternalIdentifier\",",
    "\"Type\":\"local-level\",\"Value\":\"C1\"}],\"Name\":\"Governor\",\"ElectionDistrictId\":\"a1\",\"VotesAllowed\":1,",
    "\"OfficeIds\":[\"a17\"],\"ContestSelection\":[{\"@id\":\"a9\",\"@type\":\"ElectionResults.CandidateSelection\",",
    "\"CandidateIds\":[\"a6\",\"a5\"]},{\"@id\":\"a10\",\"@type\":\"ElectionResults.CandidateSelection\",\"CandidateIds\":[\"a7\"]},",
    "{\"@id\":\"a11\",\"@type\":\"ElectionResults.CandidateSelection\",\"IsWriteIn\":true}]},{\"@id\":\"a12\",",
    "\"@type\":\"ElectionResults.BallotMeasureContest\",\"ExternalIdentifier\":[{\"@type\":\"ElectionResults.ExternalIdentifier\",",
    "\"Type\":\"local-level\",\"Value\":\"C2\"}],\"Name\":\"Bonds\",\"ElectionDistrictId\":\"a1\",",
    "\"ContestSelection\":[{\"@id\":\"a13\",\"@type\":\"ElectionResults.BallotMeasureSelection\",",
    "\"Selection\":{\"@type\":\"ElectionResults.InternationalizedText\",\"Text\":[{\"@type\":\"ElectionResults.LanguageString\",",
    "\"Language\":\"en\",\"Content\":\"Yes\"},{\"@type\":\"ElectionResults.LanguageString\",\"Language\":\"es\",",
    "\"Content\":\"Si\"}]}},{\"@id\":\"a14\",\"@type\":\"ElectionResults.BallotMeasureSelection\",\"Selection\":\"No\"}]}],",
    "\"BallotStyle\":[{\"@type\":\"ElectionResults.BallotStyle\",",
    "\"ExternalIdentifier\":[{\"@type\":\"ElectionResults.ExternalIdentifier\",\"Type\":\"local-level\",\"Value\":\"S1\"}],",
    "\"GpUnitIds\":[\"a2\"],\"OrderedContent\":[{\"@type\":\"ElectionResults.OrderedHeader\",\"HeaderId\":\"a4\",",
    "\"OrderedContent\":[{\"@type\":\"ElectionResults.OrderedContest\",\"ContestId\":\"a8\",\"OrderedContestSelectionIds\":[\"a10\",",
    "\"a9\",\"a11\"]}]},{\"@type\":\"ElectionResults.OrderedContest\",\"ContestId\":\"a12\"}]}]}]}",
);

/// The canonical form of `SMALL_BALLOT`.
pub const SMALL_BALLOT_CANONICAL: &str = concat!(
    "{\"@type\":\"ElectionResults.ElectionReport\",\"Election\":[{\"@type\":\"ElectionResults.Election\",",
    "\"BallotStyle\":[{\"@type\":\"ElectionResults.BallotStyle\",",
    "\"ExternalIdentifier\":[{\"@type\":\"ElectionResults.ExternalIdentifier\",\"Type\":\"local-level\",\"Value\":\"S1\"}],",
    "\"GpUnitIds\":[\"gp2\"],\"OrderedContent\":[{\"@type\":\"ElectionResults.OrderedHeader\",\"HeaderId\":\"hd1\",",
    "\"OrderedContent\":[{\"@type\":\"ElectionResults.OrderedContest\",\"ContestId\":\"co1\",",
    "\"OrderedContestSelectionIds\":[\"cs1-3\",\"cs1-2\",\"cs1-1\"]}]},{\"@type\":\"ElectionResults.OrderedContest\",",
    "\"ContestId\":\"co2\"}]}],\"Candidate\":[{\"@id\":\"ca1\",\"@type\":\"ElectionResults.Candidate\",\"BallotName\":\"Ann\",",
    "\"ExternalIdentifier\":[{\"@type\":\"ElectionResults.ExternalIdentifier\",\"Type\":\"local-level\",\"Value\":\"K1\"}],",
    "\"PersonId\":\"pe1\"},{\"@id\":\"ca2\",\"@type\":\"ElectionResults.Candidate\",\"BallotName\":\"Bo\",",
    "\"ExternalIdentifier\":[{\"@type\":\"ElectionResults.ExternalIdentifier\",\"Type\":\"local-level\",\"Value\":\"K2\"}]},",
    "{\"@id\":\"ca3\",\"@type\":\"ElectionResults.Candidate\",\"BallotName\":\"Cy\",",
    "\"ExternalIdentifier\":[{\"@type\":\"ElectionResults.ExternalIdentifier\",\"Type\":\"local-level\",\"Value\":\"K3\"}],",
    "\"PartyId\":\"pa1\"}],\"Contest\":[{\"@id\":\"co1\",\"@type\":\"ElectionResults.CandidateContest\",",
    "\"ContestSelection\":[{\"@id\":\"cs1-1\",\"@type\":\"ElectionResults.CandidateSelection\",\"IsWriteIn\":true},",
    "{\"@id\":\"cs1-2\",\"@type\":\"ElectionResults.CandidateSelection\",\"CandidateIds\":[\"ca1\",\"ca2\"]},{\"@id\":\"cs1-3\",",
    "\"@type\":\"ElectionResults.CandidateSelection\",\"CandidateIds\":[\"ca3\"]}],\"ElectionDistrictId\":\"gp1\",",
    "\"ExternalIdentifier\":[{\"@type\":\"ElectionResults.ExternalIdentifier\",\"Type\":\"local-level\",\"Value\":\"C1\"}],",
    "\"Name\":\"Governor\",\"OfficeIds\":[\"of1\"],\"VotesAllowed\":1},{\"@id\":\"co2\",",
    "\"@type\":\"ElectionResults.BallotMeasureContest\",\"ContestSelection\":[{\"@id\":\"cs2-1\",",
    "\"@type\":\"ElectionResults.BallotMeasureSelection\",\"Selection\":\"No\"},{\"@id\":\"cs2-2\",",
    "\"@type\":\"ElectionResults.BallotMeasureSelection\",\"Selection\":{\"@type\":\"ElectionResults.InternationalizedText\",",
    "\"Text\":[{\"@type\":\"ElectionResults.LanguageString\",\"Content\":\"Si\",\"Language\":\"es\"},",
    "{\"@type\":\"ElectionResults.LanguageString\",\"Content\":\"Yes\",\"Language\":\"en\"}]}}],\"ElectionDistrictId\":\"gp1\",",
    "\"ExternalIdentifier\":[{\"@type\":\"ElectionResults.ExternalIdentifier\",\"Type\":\"local-level\",\"Value\":\"C2\"}],",
    "\"Name\":\"Bonds\"}],\"ElectionScopeId\":\"gp1\",\"EndDate\":\"2026-11-03\",\"Name\":\"Test\",\"StartDate\":\"2026-11-03\",",
    "\"Type\":\"general\"}],\"Format\":\"summary-contest\",\"GeneratedDate\":\"2000-01-01T00:00:00Z\",\"GpUnit\":[{\"@id\":\"gp1\",",
    "\"@type\":\"ElectionResults.ReportingUnit\",\"ComposingGpUnitIds\":[\"gp2\"],",
    "\"ExternalIdentifier\":[{\"@type\":\"ElectionResults.ExternalIdentifier\",\"Type\":\"local-level\",\"Value\":\"U1\"}],",
    "\"Type\":\"county\"},{\"@id\":\"gp2\",\"@type\":\"ElectionResults.ReportingUnit\",",
    "\"ExternalIdentifier\":[{\"@type\":\"ElectionResults.ExternalIdentifier\",\"Type\":\"local-level\",\"Value\":\"U2\"}],",
    "\"Type\":\"precinct\"}],\"Header\":[{\"@id\":\"hd1\",\"@type\":\"ElectionResults.Header\",",
    "\"ExternalIdentifier\":[{\"@type\":\"ElectionResults.ExternalIdentifier\",\"Type\":\"local-level\",\"Value\":\"H1\"}],",
    "\"Name\":\"State\"}],\"Issuer\":\"canonical\",\"IssuerAbbreviation\":\"canonical\",\"Office\":[{\"@id\":\"of1\",",
    "\"@type\":\"ElectionResults.Office\",\"ExternalIdentifier\":[{\"@type\":\"ElectionResults.ExternalIdentifier\",",
    "\"Type\":\"local-level\",\"Value\":\"O1\"}],\"Name\":\"Governor\"}],\"Party\":[{\"@id\":\"pa1\",",
    "\"@type\":\"ElectionResults.Party\",\"ExternalIdentifier\":[{\"@type\":\"ElectionResults.ExternalIdentifier\",",
    "\"Type\":\"local-level\",\"Value\":\"P1\"}],\"Name\":\"Blue\"}],\"Person\":[{\"@id\":\"pe1\",",
    "\"@type\":\"ElectionResults.Person\",\"ExternalIdentifier\":[{\"@type\":\"ElectionResults.ExternalIdentifier\",",
    "\"Type\":\"local-level\",\"Value\":\"Q1\"}],\"FullName\":\"Ann Ash\"}],\"SequenceEnd\":1,\"SequenceStart\":1,",
    "\"Status\":\"pre-election\",\"VendorApplicationId\":\"canonical\"}",
);

/// Edits of `SMALL_BALLOT` that give it three faults of the shape.
pub const THREE_SHAPE_FAULT_EDITS: &[Edit] = &[
    (
        r#","Name":"Governor","ElectionDistrictId""#,
        r#","ElectionDistrictId""#,
    ),
    (r#""VotesAllowed":1"#, r#""VotesAllowed":"1""#),
    (
        r#""Type":"county","#,
        r#""Type":"county","ContactInformation":{"LatLng":{"Latitude":40.5}},"#,
    ),
];

/// The lines of these faults.
pub const THREE_SHAPE_FAULT_LINES: &str = concat!(
    "/Election/0/Contest/0: missing member Name\n/Election/0/Contest/0/VotesAllowed: wrong kind\n",
    "/GpUnit/1/ContactInformation/LatLng/Latitude: not a whole number\n",
);

/// `SMALL_BALLOT` as another vendor writes it: with other `@id` texts, and each set the other way round.
pub const OTHER_VENDOR: &str = concat!(
    r#"{"Status":"pre-election","@type":"ElectionResults.ElectionReport","GeneratedDate":"2026-08-01T09:00:00Z","Issuer":"Vendor A","#,
    r#""GpUnit":[{"@id":"z1","@type":"ElectionResults.ReportingUnit","#,
    r#""ExternalIdentifier":[{"@type":"ElectionResults.ExternalIdentifier","Type":"local-level","Value":"U1"}],"Type":"county","#,
    r#""ComposingGpUnitIds":["z2"]},{"@id":"z2","@type":"ElectionResults.ReportingUnit","#,
    r#""ExternalIdentifier":[{"@type":"ElectionResults.ExternalIdentifier","Type":"local-level","Value":"U2"}],"Type":"precinct"}],"#,
    r#""Party":[{"@id":"z3","@type":"ElectionResults.Party","ExternalIdentifier":[{"@type":"ElectionResults.ExternalIdentifier","#,
    r#""Type":"local-level","Value":"P1"}],"Name":"Blue"}],"Person":[{"@id":"z16","@type":"ElectionResults.Person","#,
    r#""ExternalIdentifier":[{"@type":"ElectionResults.ExternalIdentifier","Type":"local-level","Value":"Q1"}],"FullName":"Ann Ash"}],"#,
    r#""Office":[{"@id":"z17","@type":"ElectionResults.Office","ExternalIdentifier":[{"@type":"ElectionResults.ExternalIdentifier","#,
    r#""Type":"local-level","Value":"O1"}],"Name":"Governor"}],"Header":[{"@id":"z4","@type":"ElectionResults.Header","#,
    r#""ExternalIdentifier":[{"@type":"ElectionResults.ExternalIdentifier","Type":"local-level","Value":"H1"}],"Name":"State"}],"#,
    r#""Election":[{"@type":"ElectionResults.Election","Name":"Test","Type":"general","StartDate":"2026-11-03","EndDate":"2026-11-03","#,
    r#""ElectionScopeId":"z1","Candidate":[{"@id":"z6","@type":"ElectionResults.Candidate","#,
    r#""ExternalIdentifier":[{"@type":"ElectionResults.ExternalIdentifier","Type":"local-level","Value":"K2"}],"BallotName":"Bo"},"#,
    r#"{"@id":"z5","@type":"ElectionResults.Candidate","ExternalIdentifier":[{"@type":"ElectionResults.ExternalIdentifier","#,
    r#""Type":"local-level","Value":"K1"}],"BallotName":"Ann","PersonId":"z16"},{"@id":"z7","@type":"ElectionResults.Candidate","#,
    r#""ExternalIdentifier":[{"@type":"ElectionResults.ExternalIdentifier","Type":"local-level","Value":"K3"}],"BallotName":"Cy","#,
    r#""PartyId":"z3"}],"Contest":[{"@id":"z12","@type":"ElectionResults.BallotMeasureContest","#,
    r#""ExternalIdentifier":[{"@type":"ElectionResults.ExternalIdentifier","Type":"local-level","Value":"C2"}],"Name":"Bonds","#,
    r#""ElectionDistrictId":"z1","ContestSelection":[{"@id":"z14","@type":"ElectionResults.BallotMeasureSelection","Selection":"No"},"#,
    r#"{"@id":"z13","@type":"ElectionResults.BallotMeasureSelection","Selection":{"@type":"ElectionResults.InternationalizedText","#,
    r#""Text":[{"@type":"ElectionResults.LanguageString","Language":"es","Content":"Si"},{"@type":"ElectionResults.LanguageString","#,
    r#""Language":"en","Content":"Yes"}]}}]},{"@id":"z8","@type":"ElectionResults.CandidateContest","#,
    r#""ExternalIdentifier":[{"@type":"ElectionResults.ExternalIdentifier","Type":"local-level","Value":"C1"}],"Name":"Governor","#,
    r#""ElectionDistrictId":"z1","VotesAllowed":1,"OfficeIds":["z17"],"ContestSelection":[{"@id":"z11","#,
    r#""@type":"ElectionResults.CandidateSelection","IsWriteIn":true},{"@id":"z10","@type":"ElectionResults.CandidateSelection","#,
    r#""CandidateIds":["z7"]},{"@id":"z9","@type":"ElectionResults.CandidateSelection","CandidateIds":["z5","z6"]}]}],"#,
    r#""BallotStyle":[{"@type":"ElectionResults.BallotStyle","ExternalIdentifier":[{"@type":"ElectionResults.ExternalIdentifier","#,
    r#""Type":"local-level","Value":"S1"}],"GpUnitIds":["z2"],"OrderedContent":[{"@type":"ElectionResults.OrderedHeader","#,
    r#""HeaderId":"z4","OrderedContent":[{"@type":"ElectionResults.OrderedContest","ContestId":"z8","#,
    r#""OrderedContestSelectionIds":["z10","z9","z11"]}]},{"@type":"ElectionResults.OrderedContest","ContestId":"z12"}]}]}]}"#,
);

/// `SMALL_BALLOT` with another envelope, and the members of the report the other way round.
pub const OTHER_ENVELOPE: &str = concat!(
    r#"{"SequenceEnd":9,"SequenceStart":4,"VendorApplicationId":"b","Election":[{"@type":"ElectionResults.Election","Name":"Test","#,
    r#""Type":"general","StartDate":"2026-11-03","EndDate":"2026-11-03","ElectionScopeId":"a1","Candidate":[{"@id":"a7","#,
    r#""@type":"ElectionResults.Candidate","ExternalIdentifier":[{"@type":"ElectionResults.ExternalIdentifier","Type":"local-level","#,
    r#""Value":"K3"}],"BallotName":"Cy","PartyId":"a3"},{"@id":"a5","@type":"ElectionResults.Candidate","#,
    r#""ExternalIdentifier":[{"@type":"ElectionResults.ExternalIdentifier","Type":"local-level","Value":"K1"}],"BallotName":"Ann","#,
    r#""PersonId":"a16"},{"@id":"a6","@type":"ElectionResults.Candidate","#,
    r#""ExternalIdentifier":[{"@type":"ElectionResults.ExternalIdentifier","Type":"local-level","Value":"K2"}],"BallotName":"Bo"}],"#,
    r#""Contest":[{"@id":"a8","@type":"ElectionResults.CandidateContest","#,
    r#""ExternalIdentifier":[{"@type":"ElectionResults.ExternalIdentifier","Type":"local-level","Value":"C1"}],"Name":"Governor","#,
    r#""ElectionDistrictId":"a1","VotesAllowed":1,"OfficeIds":["a17"],"ContestSelection":[{"@id":"a9","#,
    r#""@type":"ElectionResults.CandidateSelection","CandidateIds":["a6","a5"]},{"@id":"a10","#,
    r#""@type":"ElectionResults.CandidateSelection","CandidateIds":["a7"]},{"@id":"a11","@type":"ElectionResults.CandidateSelection","#,
    r#""IsWriteIn":true}]},{"@id":"a12","@type":"ElectionResults.BallotMeasureContest","#,
    r#""ExternalIdentifier":[{"@type":"ElectionResults.ExternalIdentifier","Type":"local-level","Value":"C2"}],"Name":"Bonds","#,
    r#""ElectionDistrictId":"a1","ContestSelection":[{"@id":"a13","@type":"ElectionResults.BallotMeasureSelection","#,
    r#""Selection":{"@type":"ElectionResults.InternationalizedText","Text":[{"@type":"ElectionResults.LanguageString","Language":"en","#,
    r#""Content":"Yes"},{"@type":"ElectionResults.LanguageString","Language":"es","Content":"Si"}]}},{"@id":"a14","#,
    r#""@type":"ElectionResults.BallotMeasureSelection","Selection":"No"}]}],"BallotStyle":[{"@type":"ElectionResults.BallotStyle","#,
    r#""ExternalIdentifier":[{"@type":"ElectionResults.ExternalIdentifier","Type":"local-level","Value":"S1"}],"GpUnitIds":["a2"],"#,
    r#""OrderedContent":[{"@type":"ElectionResults.OrderedHeader","HeaderId":"a4","#,
    r#""OrderedContent":[{"@type":"ElectionResults.OrderedContest","ContestId":"a8","OrderedContestSelectionIds":["a10","a9","a11"]}]},"#,
    r#"{"@type":"ElectionResults.OrderedContest","ContestId":"a12"}]}]}],"Header":[{"@id":"a4","@type":"ElectionResults.Header","#,
    r#""ExternalIdentifier":[{"@type":"ElectionResults.ExternalIdentifier","Type":"local-level","Value":"H1"}],"Name":"State"}],"#,
    r#""Office":[{"@id":"a17","@type":"ElectionResults.Office","ExternalIdentifier":[{"@type":"ElectionResults.ExternalIdentifier","#,
    r#""Type":"local-level","Value":"O1"}],"Name":"Governor"}],"Person":[{"@id":"a16","@type":"ElectionResults.Person","#,
    r#""ExternalIdentifier":[{"@type":"ElectionResults.ExternalIdentifier","Type":"local-level","Value":"Q1"}],"FullName":"Ann Ash"}],"#,
    r#""Party":[{"@id":"a3","@type":"ElectionResults.Party","ExternalIdentifier":[{"@type":"ElectionResults.ExternalIdentifier","#,
    r#""Type":"local-level","Value":"P1"}],"Name":"Blue"}],"GpUnit":[{"@id":"a2","@type":"ElectionResults.ReportingUnit","#,
    r#""ExternalIdentifier":[{"@type":"ElectionResults.ExternalIdentifier","Type":"local-level","Value":"U2"}],"Type":"precinct"},"#,
    r#"{"@id":"a1","@type":"ElectionResults.ReportingUnit","ExternalIdentifier":[{"@type":"ElectionResults.ExternalIdentifier","#,
    r#""Type":"local-level","Value":"U1"}],"Type":"county","ComposingGpUnitIds":["a2"]}],"Issuer":"Vendor B","#,
    r#""GeneratedDate":"2026-09-09T00:00:00Z","@type":"ElectionResults.ElectionReport","Status":"pre-election"}"#,
);

/// The unit of `ONE_UNIT`, and of its canonical form, with marks.
pub const UNIT: &str = r#"{"@id":"u7","@type":"%ReportingUnit","Type":"county",#U1&}"#;

pub const CANONICAL_UNIT: &str = r#"{"@id":"gp1","@type":"%ReportingUnit",#U1&,"Type":"county"}"#;

/// The election of `ONE_UNIT`, with marks.
pub const ELECTION: &str =
    r#"{"@type":"%Election","Name":"Test","Type":"general","StartDate":"2026-11-03","EndDate":"2026-11-03","ElectionScopeId":"u7"}"#;

/// The type of most identifiers here, as a preference.
pub const LOCAL: Option<&str> = Some("local-level");
