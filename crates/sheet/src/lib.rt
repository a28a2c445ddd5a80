// Points and edges with what belongs to them: the order, sameness, top, bottom, up or down, the range, the rank.
// Then what the two calls answer: a result, or why not. What each means is defined in specs/, in the paper's words.
#![tactic(auto)]

ghost use Rattle.std.specs.Prelude.{◌≡◌, ◌+◌, ◌*◌, ◌<◌, min, max, length};
ghost use Rattle.sheet.specs.Points.{is_below, is_same, within, in_range, is_film, is_up, top_of, bottom_of};
ghost use Rattle.sheet.specs.Rank.{shift, rank};
ghost use Rattle.sheet.specs.Edges.{edge_at};
ghost use Rattle.sheet.specs.Answers.{number_of, place_of};
ghost use Rattle.sheet.specs.TurnList.{turn_number_of, turn_place_of};
ghost use Rattle.sheet.specs.Amounts.{numbers_per_edge};

// Points are in order as their coordinates stand here: by y, and at equal y by x.
#[derive(Clone, Copy, Debug, PartialEq, Eq, PartialOrd, Ord)]
pub struct Point {
    pub y: i32,
    pub x: i32,
}

impl Point {
    // The coordinates' limits.
    pub const LEAST: i32 = -1_000_000;

    pub const MOST: i32 = 1_000_000;

    // Whether this point is below the other: by y, and at equal y by x.
    pub fn below(self, other: Point) -> bool
        ensures { result ≡ is_below self other }
    {
        self < other
    }

    pub fn same(self, other: Point) -> bool
        ensures { result ≡ is_same self other }
    {
        self == other
    }

    pub fn in_range(self) -> bool
        ensures { result ≡ in_range self }
    {
        between_limits(self.x) && between_limits(self.y)
    }

    // One number for a point. In the range it orders points as below does and tells them apart.
    pub fn rank(self) -> u64
        ensures { result ≡ rank self }
    {
        u64::from(shifted(self.y)) * 2_097_152 + u64::from(shifted(self.x))
    }
}

// Whether a coordinate lies between the limits.
fn between_limits(c: i32) -> bool
    ensures { result ≡ within c }
{
    (Point::LEAST..=Point::MOST).contains(&c)
}

// A coordinate moved up by a million, so that the least is 0.
fn shifted(c: i32) -> u32
    ensures { result ≡ shift c }
{
    c.max(Point::LEAST).abs_diff(Point::LEAST)
}

#[derive(Clone, Copy, Debug, PartialEq, Eq)]
pub struct Edge {
    pub tail: Point,
    pub head: Point,
    pub film: i32,
}

impl Edge {
    // How many numbers an edge has in a list: tail x, tail y, head x, head y, film.
    pub const NUMBERS: usize = 5;

    // How many films there are, from 0 on.
    pub const FILMS: i32 = 256;

    // The most edges that a list holds.
    pub const MOST: usize = 4096;

    // The least numbers that the journal has for an edge.
    pub const JOURNAL_NUMBERS: usize = 8;

    // The edge at a place of a list.
    pub fn at(edges: &[i32], place: usize) -> Edge
        requires { numbers_per_edge * place + 4 < length edges.now }
        ensures { result ≡ edge_at edges.now place }
    {
        let first = Edge::NUMBERS * place;
        let tail = Point {
            x: edges[first],
            y: edges[first + 1],
        };
        let head = Point {
            x: edges[first + 2],
            y: edges[first + 3],
        };
        let film = edges[first + 4];
        Edge { tail, head, film }
    }

    // Whether the film is one of those there are.
    pub fn film_in_range(self) -> bool
        ensures { result ≡ is_film self.film }
    {
        (0..Edge::FILMS).contains(&self.film)
    }

    // Whether the head is the higher end.
    pub fn is_up(self) -> bool
        ensures { result ≡ is_up self }
    {
        self.tail.below(self.head)
    }

    // The higher end.
    pub fn top(self) -> Point
        ensures { result ≡ top_of self }
    {
        self.tail.max(self.head)
    }

    // The lower end.
    pub fn bottom(self) -> Point
        ensures { result ≡ bottom_of self }
    {
        self.tail.min(self.head)
    }

    pub fn tail_rank(self) -> u64
        ensures { result ≡ rank self.tail }
    {
        self.tail.rank()
    }

    pub fn head_rank(self) -> u64
        ensures { result ≡ rank self.head }
    {
        self.head.rank()
    }

    // The rank of the higher end, where both are in the range: two numbers are chosen between without a branch.
    pub fn top_rank(self) -> u64
        ensures { result ≡ max (rank self.tail) (rank self.head) }
    {
        self.tail_rank().max(self.head_rank())
    }

    // The rank of the lower end, likewise.
    pub fn bottom_rank(self) -> u64
        ensures { result ≡ min (rank self.tail) (rank self.head) }
    {
        self.tail_rank().min(self.head_rank())
    }
}

// Why the numbering refuses a call. Each has its number and its place in the paper; the place is an edge's where one is held. Each kind of refusal has numbers of its
// own, so a trait over `number` and `place` would have nothing to share.
#[derive(Clone, Copy, Debug, PartialEq, Eq)]
pub enum Refusal {
    NotWhole,
    TooMany,
    ListsDiffer,
    JournalShort,
    PastRange(u32),
    FilmPastRange(u32),
    EqualEnds(u32),
    TopFalls(u32),
    Repeated(u32),
    Uneven(u32),
    NotAlternating(u32),
    NoRow(u32),
}

impl Refusal {
    pub fn number(self) -> u32
        ensures { result ≡ number_of self }
    {
        match self {
            Refusal::NotWhole => 1,
            Refusal::TooMany => 2,
            Refusal::ListsDiffer => 3,
            Refusal::JournalShort => 4,
            Refusal::PastRange(_) => 5,
            Refusal::FilmPastRange(_) => 16,
            Refusal::EqualEnds(_) => 6,
            Refusal::TopFalls(_) => 7,
            Refusal::Repeated(_) => 8,
            Refusal::Uneven(_) => 9,
            Refusal::NotAlternating(_) => 17,
            Refusal::NoRow(_) => 10,
        }
    }

    pub fn place(self) -> u32
        ensures { result ≡ place_of self }
    {
        match self {
            Refusal::NotWhole | Refusal::TooMany | Refusal::ListsDiffer | Refusal::JournalShort =>
                0,
            Refusal::PastRange(e)
            | Refusal::FilmPastRange(e)
            | Refusal::EqualEnds(e)
            | Refusal::TopFalls(e)
            | Refusal::Repeated(e)
            | Refusal::Uneven(e)
            | Refusal::NotAlternating(e)
            | Refusal::NoRow(e) => e,
        }
    }
}

// What the numbering of an accepted list answers: the polygons, the most rows in use at once, the records.
#[derive(Clone, Copy, Debug, PartialEq, Eq)]
pub struct Numbered {
    pub polygons: u32,
    pub peak: u32,
    pub records: u32,
}

// Why a turn list is refused.
#[derive(Clone, Copy, Debug, PartialEq, Eq)]
pub enum TurnRefusal {
    TurnLengths,
    NoPolygon(u32),
    PairRepeated(u32),
    Gap(u32),
}

impl TurnRefusal {
    pub fn number(self) -> u32
        ensures { result ≡ turn_number_of self }
    {
        match self {
            TurnRefusal::TurnLengths => 11,
            TurnRefusal::NoPolygon(_) => 12,
            TurnRefusal::PairRepeated(_) => 13,
            TurnRefusal::Gap(_) => 14,
        }
    }

    pub fn place(self) -> u32
        ensures { result ≡ turn_place_of self }
    {
        match self {
            TurnRefusal::TurnLengths => 0,
            TurnRefusal::NoPolygon(e) | TurnRefusal::PairRepeated(e) | TurnRefusal::Gap(e) => e,
        }
    }
}
