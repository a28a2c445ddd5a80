// The calls that people make, on plain slices: exported for Rust and C, by numbers alone. include/outline.h declares the same for C.
#![tactic(auto)]

ghost use Rattle.std.specs.Prelude.{◌≡◌, length};
ghost use Rattle.numbering.specs.Outcome.{lent, left_as};
ghost use Rattle.desk.specs.Exported.{sheet_from, turned_from, Exports, ReadTurns};
ghost use Rattle.desk.specs.Told.{instruction_told, cut_from, Told};

use cutter::CutRefusal;
use cutter::blade::Instruction;
use cutter::machines::Machine;
use sheet::{Numbered, Refusal, TurnRefusal};

// What a sheet's call answers. Refusal 0: accepted, with place 0. Refused: the other three are 0.
#[repr(C)]
#[derive(Clone, Copy)]
pub struct Sheet {
    pub refusal: u32,
    pub place: u32,
    pub polygons: u32,
    pub peak: u32,
    pub records: u32,
}

// What the turn list answers, likewise.
#[repr(C)]
#[derive(Clone, Copy)]
pub struct Turned {
    pub refusal: u32,
    pub place: u32,
    pub polygons: u32,
}

// What an instruction's call answers. Refusal 0: an instruction, with place 0; what it is, 0 travel, 1 cut, 2 lift; and where to, in millimetres in the
// machine's own order. A lift and a refusal have plus zero for both, and a refusal 0 for what.
#[repr(C)]
#[derive(Clone, Copy)]
pub struct Cut {
    pub refusal: u32,
    pub place: u32,
    pub what: u32,
    pub x: f32,
    pub y: f32,
}

// The answer of a sheet's call by its numbers.
impl From<Result<Numbered, Refusal>> for Sheet {
    ghost from_gives = { λ answer sheet. sheet ≡ sheet_from answer };

    fn from(answer: Result<Numbered, Refusal>) -> Sheet {
        match answer {
            Ok(
                Numbered {
                    polygons,
                    peak,
                    records,
                },
            ) => Sheet {
                refusal: 0,
                place: 0,
                polygons,
                peak,
                records,
            },
            Err(refusal) => Sheet {
                refusal: refusal.number(),
                place: refusal.place(),
                polygons: 0,
                peak: 0,
                records: 0,
            },
        }
    }
}

// The answer of the turn list by its numbers.
impl From<Result<u32, TurnRefusal>> for Turned {
    ghost from_gives = { λ answer turned. turned ≡ turned_from answer };

    fn from(answer: Result<u32, TurnRefusal>) -> Turned {
        match answer {
            Ok(polygons) => Turned {
                refusal: 0,
                place: 0,
                polygons,
            },
            Err(refusal) => Turned {
                refusal: refusal.number(),
                place: refusal.place(),
                polygons: 0,
            },
        }
    }
}

// An instruction by its numbers.
impl From<Instruction> for Cut {
    ghost from_gives = { λ instruction cut. cut ≡ instruction_told instruction };

    fn from(instruction: Instruction) -> Cut {
        let (what, x, y) = match instruction {
            Instruction::Travel(place) => (0, place.first, place.second),
            Instruction::Cut(place) => (1, place.first, place.second),
            Instruction::Lift => (2, 0.0, 0.0),
        };
        Cut {
            refusal: 0,
            place: 0,
            what,
            x,
            y,
        }
    }
}

// The answer of an instruction's call by its numbers.
impl From<Result<Instruction, CutRefusal>> for Cut {
    ghost from_gives = { λ answer cut. cut ≡ cut_from answer };

    fn from(answer: Result<Instruction, CutRefusal>) -> Cut {
        match answer {
            Ok(instruction) => Cut::from(instruction),
            Err(refusal) => Cut {
                refusal: refusal.number(),
                place: refusal.place(),
                what: 0,
                x: 0.0,
                y: 0.0,
            },
        }
    }
}

// Numbers the edges of a list, five numbers an edge, the film last, in sweep order, and puts their places in the order in which they are cut.
#[unsafe(no_mangle)]
pub extern "C" fn outline_assemble(
    edges: &[i32],
    polygons: &mut [u32],
    sequences: &mut [u32],
    turns: &mut [u32],
    journal: &mut [i32],
    rows: &mut [i32],
) -> Sheet
    ensures { Exports (lent edges.now polygons.old sequences.old (length turns.old) journal.old rows.old) turns.old (left_as result polygons.new sequences.new journal.new rows.new) turns.new }
{
    Sheet::from(assembly::assemble(edges, polygons, sequences, turns, journal, rows))
}

// Puts the places of all edges in order, polygon by polygon, from numbers that were read from elsewhere.
#[unsafe(no_mangle)]
pub extern "C" fn outline_turns(polygons: &[u32], sequences: &[u32], turns: &mut [u32]) -> Turned
    ensures { ReadTurns polygons.now sequences.now turns.old turns.new result }
{
    Turned::from(turns::turn_list(polygons, sequences, turns))
}

// The k-th instruction of the flatbed, counted from 0, for a sheet whose edges are numbered and put in turn order.
#[unsafe(no_mangle)]
pub extern "C" fn outline_flatbed(
    edges: &[i32],
    polygons: &[u32],
    sequences: &[u32],
    turns: &[u32],
    k: u32,
) -> Cut
    ensures { Told Machine.Flatbed edges.now polygons.now sequences.now turns.now k result }
{
    Cut::from(cutter::instruction(Machine::Flatbed, edges, polygons, sequences, turns, k))
}

// The k-th instruction of the roll feeder, likewise.
#[unsafe(no_mangle)]
pub extern "C" fn outline_roll_feeder(
    edges: &[i32],
    polygons: &[u32],
    sequences: &[u32],
    turns: &[u32],
    k: u32,
) -> Cut
    ensures { Told Machine.RollFeeder edges.now polygons.now sequences.now turns.now k result }
{
    Cut::from(cutter::instruction(Machine::RollFeeder, edges, polygons, sequences, turns, k))
}
