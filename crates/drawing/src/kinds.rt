// The grammar's numbers for drawing: which kinds may stand at a place, and which of them has the shortest node. The proofs hold
// each number to the grammar.
ghost use Rattle.std.specs.Prelude.{◌≡◌, length, slice_index};
ghost use Rattle.drawing.specs.Draw.{rising, shortest};

// The kinds of a place, rising, and the kind of its shortest node.
#[derive(Clone, Copy)]
struct Place {
    kinds: &'static [u8],
    shortest: u8,
}

static PLACES: [Place; 26] = [
    Place {
        kinds: &[1],
        shortest: 1,
    },
    Place {
        kinds: &[2, 3, 4, 6, 7, 8, 9, 11, 12, 13, 14, 43],
        shortest: 11,
    },
    Place {
        kinds: &[
            2, 3, 4, 6, 7, 8, 9, 11, 12, 13, 14, 17, 18, 22, 23, 24, 26, 27, 28, 29, 30, 31, 32,
            33, 40, 43,
        ],
        shortest: 11,
    },
    Place {
        kinds: &[14, 17, 18, 22, 23, 24, 27, 28, 29, 30, 31, 32, 33, 40],
        shortest: 23,
    },
    Place {
        kinds: &[5],
        shortest: 5,
    },
    Place {
        kinds: &[2],
        shortest: 2,
    },
    Place {
        kinds: &[10],
        shortest: 10,
    },
    Place {
        kinds: &[15],
        shortest: 15,
    },
    Place {
        kinds: &[16],
        shortest: 16,
    },
    Place {
        kinds: &[14, 16, 17, 18, 22, 23, 24, 27, 28, 29, 30, 31, 32, 33, 40],
        shortest: 16,
    },
    Place {
        kinds: &[22],
        shortest: 22,
    },
    Place {
        kinds: &[
            14, 17, 18, 22, 23, 24, 27, 28, 29, 30, 31, 32, 33, 38, 39, 40,
        ],
        shortest: 23,
    },
    Place {
        kinds: &[25, 26],
        shortest: 26,
    },
    Place {
        kinds: &[14, 17, 18, 22, 23, 24, 26, 27, 28, 29, 30, 31, 32, 33, 40],
        shortest: 23,
    },
    Place {
        kinds: &[4, 14, 17, 18, 22, 23, 24, 27, 28, 29, 30, 31, 32, 33, 40],
        shortest: 23,
    },
    Place {
        kinds: &[19, 34, 36],
        shortest: 34,
    },
    Place {
        kinds: &[19],
        shortest: 19,
    },
    Place {
        kinds: &[35],
        shortest: 35,
    },
    Place {
        kinds: &[19, 34, 36, 37],
        shortest: 34,
    },
    Place {
        kinds: &[18, 30, 31, 33, 34, 36],
        shortest: 34,
    },
    Place {
        kinds: &[18, 30, 31, 33],
        shortest: 18,
    },
    Place {
        kinds: &[4, 18, 30, 31, 33, 34, 36],
        shortest: 34,
    },
    Place {
        kinds: &[35],
        shortest: 35,
    },
    Place {
        kinds: &[18, 30, 31, 33, 34, 36, 37],
        shortest: 34,
    },
    Place {
        kinds: &[41, 42],
        shortest: 42,
    },
    Place {
        kinds: &[44],
        shortest: 44,
    },
];

// Past the last place stands no kind.
fn place_at(place: usize) -> Place
    ensures { (result.kinds.now ≡ rising place) × (result.shortest ≡ shortest place) }
{
    if place < PLACES.len() {
        PLACES[place]
    } else {
        Place {
            kinds: &[],
            shortest: 0,
        }
    }
}

pub(crate) fn count(place: usize) -> usize
    ensures { result ≡ length (rising place) }
{
    place_at(place).kinds.len()
}

pub(crate) fn kind(place: usize, i: usize) -> u8
    ensures { result ≡ slice_index (rising place) i }
{
    place_at(place).kinds.get(i).copied().unwrap_or(0)
}

pub(crate) fn shortest_kind(place: usize) -> u8
    ensures { result ≡ shortest place }
{
    place_at(place).shortest
}
