// The sweep down: the records read last to first, with the rows' slice as the look-up table. A record finds what its chain's row was given by a record
// that stands later in the journal, adds its offset, and hands the sum on: to its edge of the list, or to the row that it is named after.
ghost use Rattle.std.specs.Prelude.{◌≡◌, [], ◌∷◌, ℕ, ◌+◌, ◌*◌, ◌≤◌, ◌<◌, pos, ◌+ℤ◌, length, get_or, set};
ghost use Rattle.std.proofs.lemmas.List.Edits.{sets};
ghost use Rattle.steps.specs.Rows.{in_row};
ghost use Rattle.steps.specs.SweepDown as steps;
ghost use Rattle.steps.specs.SweepDown.{natural_part};
ghost use Rattle.journal.specs.Layout.{HasRecord, fitting, record_at, record_slice};
ghost use Rattle.sweep.specs.Lookup.{narrowed, numbers_in, tables, reading};
ghost use Rattle.sweep.specs.Reading.{SameLent, read_by};
ghost use Rattle.steps.specs.Swept.{numbers_per_row, numbers_per_record};

// The number at a place, 0 past the end.
fn number_at(s: &[i32], i: usize) -> i32
    ensures { result ≡ get_or s.now i (pos 0) }
{
    s.get(i).copied().unwrap_or(0)
}

// A value put at a place, past the end nowhere. By index, since nothing is known of what is written through `get_mut`.
fn put<T: Copy>(s: &mut [T], i: usize, x: T)
    ensures { s.new ≡ set s.old i x }
{
    if i < s.len() {
        s[i] = x;
    }
}

// The sum of two numbers where 32 signed bits hold it, otherwise 0.
fn narrow_sum(a: i32, b: i32) -> i32
    ensures { result ≡ narrowed (a +ℤ b) }
{
    a.checked_add(b).unwrap_or(0)
}

// The sum of two numbers where it is not below 0, otherwise 0.
fn natural_sum(a: i32, b: i32) -> u32
    ensures { result ≡ natural_part (a +ℤ b) }
{
    u32::try_from(i64::from(a) + i64::from(b)).unwrap_or(0)
}

// A row given a polygon number and a sequence number. A row's number is asked to be below 2^31 where it is multiplied; `Short` of the crate journal has it so.
fn give(rows: &mut [i32], r: usize, polygon: usize, sequence: i32)
    requires { r < 2147483648 }
    ensures { rows.new ≡ sets rows.old (numbers_per_row * r) (pos (fitting polygon) ∷ sequence ∷ []) }
{
    let p = journal::fit(polygon);
    put(rows, rows::NUMBERS * r, p);
    put(rows, rows::NUMBERS * r + 1, sequence);
}

// A sweep down on its way: the journal that it reads, the rows' slice as the look-up table, the answers of the edges, and how many polygons it has met.
#[derive(Drop)]
struct Reader<'a> {
    journal: &'a [i32],
    rows: &'a mut [i32],
    polygons: &'a mut [u32],
    sequences: &'a mut [u32],
    count: usize,
}

impl<'a> Reader<'a> {
    // The polygon number that a row was given.
    fn polygon_of(&self, r: usize) -> u32
        requires { r < 2147483648 }
        ensures { (result ≡ (numbers_in self.now.rows.now r).polygon) × (result < 2147483648) }
    {
        journal::natural(number_at(self.rows, rows::NUMBERS * r))
    }

    // The sequence number that a row was given.
    fn sequence_of(&self, r: usize) -> i32
        requires { r < 2147483648 }
        ensures { result ≡ (numbers_in self.now.rows.now r).sequence }
    {
        number_at(self.rows, rows::NUMBERS * r + 1)
    }

    // A record of row r's chain read: what the row was given, with the record's offset, is an edge's answer at level 0 and is given to a row above it.
    fn hand_on(&mut self, k: usize, r: usize)
        requires { HasRecord self.old.journal.now k × (r < 2147483648) }
        ensures lent { SameLent self.old self.new }
        ensures read { read_by self.new ≡ steps.read_record tables (read_by self.old) (record_at self.old.journal.now k) (in_row r) }
    {
        let name = journal::name_at(self.journal, k);
        let offset = journal::offset_at(self.journal, k);
        let polygon = self.polygon_of(r);
        let sequence = self.sequence_of(r);
        if journal::level_at(self.journal, k) == 0 {
            put(self.polygons, name, polygon);
            put(self.sequences, name, natural_sum(sequence, offset));
        } else {
            give(
                self.rows,
                name,
                polygon as usize,
                narrow_sum(sequence, offset),
            );
        }
    }

    // A record read. A closing record takes the next polygon number.
    fn read_record(&mut self, k: usize)
        requires { HasRecord self.old.journal.now k × (self.old.count < 18446744073709551615) }
        ensures lent { SameLent self.old self.new }
        ensures read { read_by self.new ≡ steps.read_record tables (read_by self.old) (record_at self.old.journal.now k) (record_at self.old.journal.now k).chain }
        ensures count { self.new.count ≤ self.old.count + 1 }
    {
        let Some(r) = journal::chain_at(self.journal, k) else {
            let name = journal::name_at(self.journal, k);
            let offset = journal::offset_at(self.journal, k);
            self.count += 1;
            give(self.rows, name, self.count, offset);
            return;
        };
        self.hand_on(k, r);
    }

    // The first records of the journal read, from the last to the first.
    fn read_records(&mut self, records: usize)
        requires { (numbers_per_record * records ≤ length self.old.journal.now) × (self.old.count ≡ 0) }
        ensures lent { SameLent self.old self.new }
        ensures read { read_by self.new ≡ steps.sweep_down tables record_slice self.old.journal.now records (read_by self.old) }
    {
        for k in (0..records).rev() {
            self.read_record(k);
        }
    }
}

// The first records of the journal, from the last to the first. The answer is the number of polygons. The records are counted beside the journal, which may be longer, as
// `sweep_down` of the steps has it.
pub fn sweep_down(
    journal: &[i32],
    records: usize,
    rows: &mut [i32],
    polygons: &mut [u32],
    sequences: &mut [u32],
) -> usize
    requires { numbers_per_record * records ≤ length journal.now }
    ensures { reading rows.new polygons.new sequences.new result ≡ steps.sweep_down tables record_slice journal.now records (reading rows.old polygons.old sequences.old 0) }
{
    let mut reader = Reader {
        journal,
        rows,
        polygons,
        sequences,
        count: 0,
    };
    reader.read_records(records);
    reader.count
}
