// The entries of A's relocation tables that join a section of the result, appended. Each function says `Written` of its definition: entries that do not fit are counted and not
// written.
#![tactic(auto)]

ghost use Rattle.std.specs.Prelude.{◌+◌, ◌*◌, ◌^◌, ◌≤◌, ◌<◌, length};
ghost use Rattle.base_lists.specs.Written.{Written};
ghost use Rattle.carry_entries.specs.Entries.{carried_bytes};
ghost use Rattle.carry_entries.specs.Code.{carrying_in, EntriesRead};
ghost use Rattle.base_scope.specs.Limits.{FILE_LIMIT};
ghost use Rattle.write_tables.specs.Tables.{brought_by, joined_in, TableRows};

use carry_entries::Side;

// Row j's turn in joining section i: the entries of its table, where that is its home.
fn append_row(
    out: &mut [u8],
    at: u64,
    file: &[u8],
    side: Side,
    rows: &[u8],
    late: &[u8],
    numbers: &[u8],
    homes: &[u8],
    i: usize,
    n: usize,
    j: usize,
) -> u64
    requires { EntriesRead file.now side rows.now late.now numbers.now × TableRows side.order file.now homes.now n × (j < n) × (length file.now ≤ FILE_LIMIT) × (at < 2 ^ 62) }
    ensures { Written out.old at
        (brought_by homes.now (carried_bytes side.order file.now (carrying_in file.now side rows.now late.now numbers.now)) i j) result out.new
        × (result ≤ at + FILE_LIMIT) }
{
    if carry_homes::home_at(homes, j) == i {
        let t = carry_homes::table_at(homes, j);
        return carry_entries::append_entries(out, at, file, side, rows, late, numbers, t);
    }
    at
}

// Appends the entries of the tables in n rows that join section i.
pub fn append_joined(
    out: &mut [u8],
    at: u64,
    file: &[u8],
    side: Side,
    rows: &[u8],
    late: &[u8],
    numbers: &[u8],
    homes: &[u8],
    i: usize,
    n: usize,
) -> u64
    requires { EntriesRead file.now side rows.now late.now numbers.now × TableRows side.order file.now homes.now n × (length file.now ≤ FILE_LIMIT) × (at < 2 ^ 60) }
    ensures { Written out.old at
        (joined_in homes.now (carried_bytes side.order file.now (carrying_in file.now side rows.now late.now numbers.now)) i n) result out.new
        × (result ≤ at + n * FILE_LIMIT) }
{
    let mut next = at;
    for j in 0..n {
        next = append_row(out, next, file, side, rows, late, numbers, homes, i, n, j);
    }
    next
}
