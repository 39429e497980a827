// What jumps bring: for each offset the height with which it is reached, and the most instructions before it.
ghost use Rattle.std.specs.Prelude.{◌≡◌, ◌<◌, get_or, length, replicate};
ghost use Rattle.verdict.specs.Pass3.{unreached, joined, arrive, raise};

// The marks, as wide as a height is in the code.
pub const UNREACHED: usize = verdict::UNREACHED as usize;

pub const DIFFERING: usize = verdict::DIFFERING as usize;

// What comes to a start: its height, or a mark as in the table, and the most instructions before it.
#[derive(Clone, Copy)]
pub struct Flow {
    pub height: usize,
    pub distance: usize,
}

// The height, or mark, where `cell` stood and a height arrives.
pub fn joined_with(cell: usize, height: usize) -> usize
    requires { height < 256 }
    ensures { (result ≡ joined cell height) × (result < 256) }
{
    if cell == UNREACHED || cell == height {
        return height;
    }
    DIFFERING
}

// What jumps have brought to the first N offsets.
#[derive(Drop)]
pub struct Brought<const N: usize> {
    pub heights: [u8; N],
    pub distances: [u16; N],
    ghost whole: { (length heights ≡ N) × (length distances ≡ N) },
}

impl<const N: usize> Brought<N> {
    pub fn new() -> Brought<N>
        ensures { (result.heights ≡ replicate N unreached) × (result.distances ≡ replicate N 0) }
    {
        Brought {
            heights: [verdict::UNREACHED; N],
            distances: [0; N],
        }
    }

    // What has come to `at`.
    pub fn at(&self, at: usize) -> Flow
        requires { at < N }
        ensures { (result.height ≡ get_or self.now.heights at 0) × (result.height < 256) × (result.distance ≡ get_or self.now.distances at 0) × (result.distance < 65536) }
    {
        Flow {
            height: usize::from(self.heights[at]),
            distance: usize::from(self.distances[at]),
        }
    }

    // A jump arrives at `to` with that height, after that many instructions.
    pub fn arrive(&mut self, to: usize, flow: Flow)
        requires { (to < N) × (flow.height < 256) × (flow.distance < 65536) }
        ensures { (self.new.heights ≡ arrive flow.height to self.old.heights) × (self.new.distances ≡ raise flow.distance to self.old.distances) }
    {
        let here = self.at(to);
        self.heights[to] = joined_with(here.height, flow.height) as u8;
        self.distances[to] = here.distance.max(flow.distance) as u16;
    }
}
