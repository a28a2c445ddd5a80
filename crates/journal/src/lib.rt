// Records in the lent journal. Only this crate knows how a record lies in its four numbers: specs/Layout.antt says it, and writing and reading here
// are proved equal to what the steps do with a journal laid out so.
#![tactic(auto, using(crate::proofs::Numbers::reads), unfolding(crate::specs::Layout::record_at, crate::specs::Layout::chain_in, crate::specs::Layout::row_number, steps::specs::SweepDown::natural_part))]

ghost use Rattle.std.specs.Prelude.{◌≡◌, ◌++◌, ◌-◌, ◌*◌, ◌≤◌, ◌<◌, pos, length, take, replicate};
ghost use Rattle.steps.specs.SweepDown.{natural_part};
ghost use Rattle.journal.specs.Layout.{records_in, HasRecord, fitting, chain_in, chain_of, row_number, Short, record_at, written_in};
ghost use Rattle.steps.specs.Swept.{numbers_per_record};

// How many numbers a record has.
const NUMBERS: usize = 4;

// How many records a slice has room for.
pub fn records_in(journal: &[i32]) -> usize
    ensures { result ≡ records_in journal.now }
{
    journal.len() / NUMBERS
}

// A number as a signed one. Above 31 bits it is the largest of 31 bits.
pub fn fit(n: usize) -> i32
    ensures { result ≡ pos (fitting n) }
{
    i32::try_from(n).unwrap_or(i32::MAX)
}

// A signed number as a natural one, 0 for one below 0. A cast: what is not below 0 loses nothing.
pub fn natural(z: i32) -> u32
    ensures { (result ≡ natural_part z) × (result < 2147483648) }
{
    z.max(0) as u32
}

// The number that stands for a chain's row; -1 where there is none.
fn row_number(chain: Option<usize>) -> i32
    ensures { result ≡ row_number (chain_of chain) }
{
    chain.map_or(-1, fit)
}

// The record of an edge that is attached to a row's chain; none where the edge closes an outline. Its four numbers go one by one, since only this function takes them
// together, and records go by their number in the journal, as rows do in their slice.
pub fn write(
    journal: &mut [i32],
    k: usize,
    level: u32,
    name: usize,
    chain: Option<usize>,
    offset: i32,
)
    requires { HasRecord journal.old k }
    ensures { journal.new ≡ written_in journal.old k (record { level = level; name = name; chain = chain_of chain; offset = offset }) }
{
    let record = [fit(level as usize), fit(name), row_number(chain), offset];
    let b = NUMBERS * k;
    journal[b..b + NUMBERS].copy_from_slice(&record);
}

pub fn level_at(journal: &[i32], k: usize) -> u32
    requires { HasRecord journal.now k }
    ensures { result ≡ (record_at journal.now k).level }
{
    natural(journal[NUMBERS * k])
}

pub fn name_at(journal: &[i32], k: usize) -> usize
    requires { HasRecord journal.now k }
    ensures { (result ≡ (record_at journal.now k).name) × (result < 2147483648) }
{
    natural(journal[NUMBERS * k + 1]) as usize
}

// The row that a number names, or none.
fn chain_in(z: i32) -> Option<usize>
    ensures { (chain_of result ≡ chain_in z) × Short result }
{
    usize::try_from(z).ok()
}

// The row of a record's chain; none where the record closes an outline.
pub fn chain_at(journal: &[i32], k: usize) -> Option<usize>
    requires { HasRecord journal.now k }
    ensures { (chain_of result ≡ (record_at journal.now k).chain) × Short result }
{
    chain_in(journal[NUMBERS * k + 2])
}

pub fn offset_at(journal: &[i32], k: usize) -> i32
    requires { HasRecord journal.now k }
    ensures { result ≡ (record_at journal.now k).offset }
{
    journal[NUMBERS * k + 3]
}

// Zeros behind the first k records.
pub fn zero_from(journal: &mut [i32], k: usize)
    requires { numbers_per_record * k ≤ length journal.old }
    ensures { journal.new ≡ take (numbers_per_record * k) journal.old ++ replicate (length journal.old - numbers_per_record * k) (pos 0) }
{
    journal[NUMBERS * k..].fill(0);
}
