// A board as a record of bytes, two a place: its case and its row.
ghost use Rattle.std.specs.Prelude.{◌≡◌, ◌≤◌, ◌<◌, length};
ghost use Rattle.base.specs.Word.{word_bytes};
ghost use Rattle.places.specs.Layout.{place_count};
ghost use Rattle.records.specs.Record.{recorded_place, board_of, case_byte, row_byte, place_record, WordsTo, written, record_length};

use base::put_word;
use places::{Board, Case, PLACES, Place};

// The bytes of a place, and those of a record.
const PLACE: usize = 2;

pub const RECORD: usize = PLACE * PLACES;

// The place of a case byte up to 3 and a row byte. Not part of `place_of`: in one match, reading a record takes 12 ns more (no vector instructions).
fn known_place(case: u8, row: u8) -> Place
    requires { case < 4 }
    ensures { result ≡ recorded_place case row }
{
    match case {
        0 => Place { case: Case::Empty },
        1 => Place {
            case: Case::Enforced(row),
        },
        2 => Place {
            case: Case::Watched(row),
        },
        _ => Place {
            case: Case::Fulfilled,
        },
    }
}

// The place of two bytes. A case byte above 3 is read as an enforced rule at a row that no table has.
fn place_of(case: u8, row: u8) -> Place
    ensures { result ≡ recorded_place case row }
{
    if case < 4 {
        known_place(case, row)
    } else {
        Place {
            case: Case::Enforced(255),
        }
    }
}

// The board of a record.
#[tactic(auto, unfolding(crate::specs::Record::board_of))]
pub fn read_board(bytes: &[u8]) -> Board
    requires { record_length ≤ length bytes.now }
    ensures { result ≡ board_of bytes.now }
{
    let mut places = [Place { case: Case::Empty }; PLACES];
    for i in 0..PLACES {
        places[i] = place_of(bytes[PLACE * i], bytes[PLACE * i + 1]);
    }
    Board::from_places(places)
}

// The first byte of a place: its case.
fn case_byte(case: Case) -> u8
    ensures { result ≡ case_byte case }
{
    match case {
        Case::Empty => 0,
        Case::Enforced(_) => 1,
        Case::Watched(_) => 2,
        Case::Fulfilled => 3,
    }
}

// The second byte of a place: its row.
fn row_byte(case: Case) -> u8
    ensures { result ≡ row_byte case }
{
    match case {
        Case::Enforced(row) | Case::Watched(row) => row,
        Case::Empty | Case::Fulfilled => 0,
    }
}

// The two bytes of a place as one number of 16 bits, the case below the row.
fn place_word(case: Case) -> u16
    ensures { word_bytes result ≡ place_record case }
{
    u16::from_le_bytes([case_byte(case), row_byte(case)])
}

// These numbers of all places. They stand in an array before they are written, so that the compiler makes the record by vector instructions and stores
// it at once: the load of the next call is as wide.
fn words_of(board: Board) -> [u16; PLACES]
    ensures { WordsTo board.places place_count result }
{
    let places = board.places;
    let mut words = [0; PLACES];
    for i in 0..PLACES {
        words[i] = place_word(places[i].case);
    }
    words
}

// Writes a board over the front.
pub fn write_board(bytes: &mut [u8], board: Board)
    requires { record_length ≤ length bytes.old }
    ensures { bytes.new ≡ written board bytes.old }
{
    let words = words_of(board);
    for i in 0..PLACES {
        put_word(bytes, PLACE * i, usize::from(words[i]));
    }
}
