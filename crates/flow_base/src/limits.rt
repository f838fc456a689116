//! How much a run may take, and which limit was reached.
//!
//! A run stops with `Full` if a further byte, object, flow or batch would pass `input`, `entities`, `flows`,
//! `payload` or `store`. The other limits refuse nothing: they cut, count or release earlier.
ghost use Rattle.std.specs.Prelude.{◌≡◌, ◌≤◌, ◌^◌};

/// The limits of a run. A value holds no number above those of `standard`.
#[derive(Clone, Copy, Debug, PartialEq, Eq)]
pub struct Limits {
    /// Bytes of a line; a longer line is malformed.
    pub line: usize,
    /// Groups of records that wait to be joined; above it the least group is released.
    pub groups: usize,
    /// Bytes of the lines of waiting records; above it the least group is released.
    pub text: usize,
    /// Records of one group; further ones are counted and dropped.
    pub records: usize,
    /// Bytes of the log in the history, and apart from them bytes of one run's questions.
    pub input: u64,
    /// Known objects.
    pub entities: u32,
    /// Flows.
    pub flows: u64,
    /// Bytes of the payload of one batch.
    pub payload: u64,
    /// Bytes of the store's disk.
    pub store: u64,
    /// Bytes taken since the last commit after which a commit falls due.
    pub batch: u64,
    /// Bytes of a question line; a longer one is a bad question.
    pub question: usize,
    /// Malformed lines that are listed; further ones are only counted.
    pub shown: usize,
    /// Names of one object; further ones are dropped.
    pub names: usize,
    /// Bytes of a joined path; the rest is cut off.
    pub path: usize,
    pub ghost line_within: { line ≤ 65536 },
    pub ghost groups_within: { groups ≤ 4096 },
    pub ghost text_within: { text ≤ 16777216 },
    pub ghost records_within: { records ≤ 512 },
    pub ghost records_some: { 1 ≤ records },
    pub ghost input_within: { input ≤ 2 ^ 60 },
    pub ghost entities_within: { entities ≤ 10000000 },
    pub ghost flows_within: { flows ≤ 2 ^ 48 },
    pub ghost payload_within: { payload ≤ 2 ^ 30 },
    pub ghost store_within: { store ≤ 2 ^ 50 },
    pub ghost batch_within: { batch ≤ 4194304 },
    pub ghost batch_some: { 1 ≤ batch },
    pub ghost question_within: { question ≤ 4096 },
    pub ghost shown_within: { shown ≤ 100 },
    pub ghost names_within: { names ≤ 16 },
    pub ghost path_within: { path ≤ 4096 },
}

impl Limits {
    /// The limits of the program.
    pub fn standard() -> Limits
        ensures line { result.line ≡ 65536 }
        ensures groups { result.groups ≡ 4096 }
        ensures text { result.text ≡ 16777216 }
        ensures records { result.records ≡ 512 }
        ensures input { result.input ≡ 2 ^ 60 }
        ensures entities { result.entities ≡ 10000000 }
        ensures flows { result.flows ≡ 2 ^ 48 }
        ensures payload { result.payload ≡ 2 ^ 30 }
        ensures store { result.store ≡ 2 ^ 50 }
        ensures batch { result.batch ≡ 4194304 }
        ensures question { result.question ≡ 4096 }
        ensures shown { result.shown ≡ 100 }
        ensures names { result.names ≡ 16 }
        ensures path { result.path ≡ 4096 }
    {
        Limits {
            line: 65_536,
            groups: 4_096,
            text: 16_777_216,
            records: 512,
            input: 1 << 60,
            entities: 10_000_000,
            flows: 1 << 48,
            payload: 1 << 30,
            store: 1 << 50,
            batch: 4_194_304,
            question: 4_096,
            shown: 100,
            names: 16,
            path: 4_096,
        }
    }
}

/// A limit that can refuse.
#[derive(Clone, Copy, Debug, PartialEq, Eq)]
pub enum Limit {
    Input,
    Entities,
    Flows,
    Payload,
    Store,
}

/// The limit would be passed. The number is the limit's.
#[derive(Clone, Copy, Debug, PartialEq, Eq)]
pub struct Full {
    pub limit: Limit,
    pub number: u64,
}
