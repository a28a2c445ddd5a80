// The lines of the output, word by word.
ghost use Rattle.std.specs.Prelude.{◌≡◌, ◌++◌, ◌+◌, ◌≤◌, ◌<◌, length};
ghost use Rattle.printing.specs.Output.{accepted, refused, edge_line, edge_lines};
ghost use Rattle.printing.specs.Laid.{Put};

use crate::bytes::Output;
use sheet::Numbered;

impl Output<'_> {
    // An accepted sheet: the first line and the edges' lines.
    pub fn put_accepted(&mut self, numbered: Numbered, polygons: &[u32], sequences: &[u32])
        requires { (self.old.at ≡ 0) × (length polygons.now ≤ 512) × (length sequences.now ≡ length polygons.now) }
        ensures { Put self.old (accepted numbered ++ edge_lines polygons.now sequences.now (length polygons.now)) self.new }
    {
        self.put_counts(numbered);
        self.put_edge_lines(polygons, sequences);
    }

    fn put_counts(&mut self, numbered: Numbered)
        requires { self.old.at ≡ 0 }
        ensures { Put self.old (accepted numbered) self.new × (self.new.at ≤ 42) }
    {
        self.put_word(b"accepted ");
        self.put_number(numbered.polygons, b' ');
        self.put_number(numbered.peak, b' ');
        self.put_number(numbered.records, b'\n');
    }

    // The edges in the opposite order of the input.
    fn put_edge_lines(&mut self, polygons: &[u32], sequences: &[u32])
        requires { (self.old.at ≤ 100) × (length polygons.now ≤ 512) × (length sequences.now ≡ length polygons.now) }
        ensures { Put self.old (edge_lines polygons.now sequences.now (length polygons.now)) self.new }
    {
        for place in (0..polygons.len()).rev() {
            self.put_edge(place, polygons[place], sequences[place]);
        }
    }

    // An edge's line: place, polygon, sequence. The place is cast, since there are so few edges.
    fn put_edge(&mut self, place: usize, polygon: u32, sequence: u32)
        requires { (self.old.at ≤ 90000) × (place < 512) }
        ensures { Put self.old (edge_line place polygon sequence) self.new × (self.new.at ≤ self.old.at + 33) }
    {
        self.put_number(place as u32, b' ');
        self.put_number(polygon, b' ');
        self.put_number(sequence, b'\n');
    }

    pub fn put_refusal(&mut self, number: u32, place: u32)
        requires { self.old.at ≡ 0 }
        ensures { Put self.old (refused number place) self.new }
    {
        self.put_word(b"refused ");
        self.put_number(number, b' ');
        self.put_number(place, b'\n');
    }
}
