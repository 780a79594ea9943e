// The cases of a board's places.
ghost use Rattle.std.specs.Prelude.{◌≡◌, ◌<◌};
ghost use Rattle.places.specs.Layout.{place_count};
ghost use Rattle.places.specs.Places.{from_places, with_places, case_at, taken, with_case, empty_board};

use crate::{Board, Case, PLACES, Place};

impl Case {
    // Whether it is that of a taken place.
    pub fn taken(self) -> bool
        ensures { result ≡ taken self }
    {
        !matches!(self, Case::Empty)
    }
}

impl Board {
    // The board that has these places.
    pub fn from_places(places: [Place; PLACES]) -> Board
        ensures { result ≡ from_places places }
    {
        Board { places }
    }

    // The board with other places.
    pub fn with_places(self, places: [Place; PLACES]) -> Board
        ensures { result ≡ with_places self places }
    {
        Board { places }
    }

    // All places empty.
    pub fn empty() -> Board
        ensures { result ≡ empty_board }
    {
        Board::from_places([Place { case: Case::Empty }; PLACES])
    }

    // The case of a place.
    pub fn case_at(self, place: usize) -> Case
        requires { place < place_count }
        ensures { result ≡ case_at self place }
    {
        self.places[place].case
    }

    // The board with another case at a place.
    pub fn with_case(self, place: usize, case: Case) -> Board
        requires { place < place_count }
        ensures { result ≡ with_case self place case }
    {
        let mut places = self.places;
        places[place] = Place { case };
        self.with_places(places)
    }
}
