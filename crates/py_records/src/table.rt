//! A table of records: those of some releases.
ghost use Rattle.std.specs.Prelude.{◌≡◌, ◌≤◌, ◌↔◌, IsTrue, None, codes};
ghost use Rattle.toml.specs.View.{table_view};
ghost use Rattle.py_records.specs.Table.{table_from, IsRange, IsSoundTable, Clash};

use crate::records::{Records, is_sound, records_from, share_group};
use crate::values::number_in;
use py_fields::Version;
use toml::Table;

/// The records of some releases: those of one major and one minor, with patches from the first to the last.
#[derive(Clone, Copy)]
pub struct RecordTable {
    pub major: u32,
    pub minor: u32,
    pub first_patch: u32,
    pub last_patch: u32,
    pub records: Records,
}

/// What a table of a file says; of one with a flaw, zeros for what is not there.
pub fn table_from(table: &Table) -> RecordTable
    ensures { result ≡ table_from (table_view table.now) }
{
    RecordTable {
        major: number_in(table, "major"),
        minor: number_in(table, "minor"),
        first_patch: number_in(table, "first_patch"),
        last_patch: number_in(table, "last_patch"),
        records: records_from(table),
    }
}

/// Whether the numbers are at most 999, and the first patch is not above the last.
fn is_range(table: &RecordTable) -> bool
    ensures { IsTrue result ↔ IsRange table.now }
{
    table.major <= 999
        && table.minor <= 999
        && table.first_patch <= 999
        && table.last_patch <= 999
        && table.first_patch <= table.last_patch
}

/// Whether the range has a release, and the records are sound.
pub fn is_sound_table(table: &RecordTable) -> bool
    ensures { IsTrue result ↔ IsSoundTable table.now }
{
    is_range(table) && is_sound(&table.records)
}

/// Whether two tables have the same group for one version.
pub fn clashes(one: &RecordTable, other: &RecordTable) -> bool
    ensures { IsTrue result ↔ Clash one.now other.now }
{
    one.major == other.major
        && one.minor == other.minor
        && one.first_patch <= other.last_patch
        && other.first_patch <= one.last_patch
        && share_group(&one.records, &other.records)
}

impl RecordTable {
    ghost use Rattle.std.specs.Prelude.{◌≡◌};
    ghost use Rattle.py_records.specs.Table.{covers};

    /// Whether the table covers a version: by its major, its minor and its patch alone.
    #[tactic(auto, unfolding(crate::specs::Table::covers))]
    pub fn covers(&self, version: &Version) -> bool
        ensures { result ≡ covers self.now version.now }
    {
        version.major == u64::from(self.major)
            && version.minor == u64::from(self.minor)
            && u64::from(self.first_patch) <= version.patch
            && version.patch <= u64::from(self.last_patch)
    }
}
