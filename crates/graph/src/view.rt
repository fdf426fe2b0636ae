// A graph message whose records were checked, as what works on them takes it: each function takes the least that it needs to know.
ghost use Rattle.std.specs.Prelude.{◌≡◌};
ghost use Rattle.wire.specs.Layout.{end, Sound};
ghost use Rattle.graph.specs.Format.{graph_header};
ghost use Rattle.graph.specs.Layouts.{hyper_layout, cover_layout, Scannable};
ghost use Rattle.graph.specs.Ready.{Ready};
ghost use Rattle.graph.specs.Single.{hypers_single, covers_single, scannable_single, ready_single};

// So many hyperedges behind the header: they are sound.
#[derive(Clone, Copy)]
pub struct Hypers<'a> {
    pub bytes: &'a [u8],
    pub nodes: usize,
    pub count: u32,
    pub ghost sound: { Sound (hyper_layout bytes.now nodes) count graph_header } by { hypers_single bytes.now nodes count },
}

// So many cover edges at a position: they are sound.
#[derive(Clone, Copy)]
pub struct Covers<'a> {
    pub bytes: &'a [u8],
    pub nodes: usize,
    pub count: u32,
    pub at: usize,
    pub ghost sound: { Sound (cover_layout bytes.now nodes) count at } by { covers_single bytes.now nodes count at },
}

// Both, the cover edges at `middle`, behind the hyperedges: a scan needs no check.
#[derive(Clone, Copy)]
pub struct Scanned<'a> {
    pub bytes: &'a [u8],
    pub nodes: usize,
    pub hypers: u32,
    pub covers: u32,
    pub middle: usize,
    pub ghost sound: { Scannable bytes.now nodes hypers covers } by { scannable_single bytes.now nodes hypers covers },
    pub ghost behind: { middle ≡ end (hyper_layout bytes.now nodes) hypers graph_header },
}

// The bytes of an accepted message and the counts of its header: the message is ready to be worked on.
#[derive(Clone, Copy)]
pub struct Graph<'a> {
    pub bytes: &'a [u8],
    pub nodes: usize,
    pub hypers: u32,
    pub covers: u32,
    pub ghost ready: { Ready bytes.now nodes hypers covers } by { ready_single bytes.now nodes hypers covers },
}

// The same, with the position of its cover edges, which stand behind all its hyperedges.
#[derive(Clone, Copy)]
pub struct Records<'a> {
    pub bytes: &'a [u8],
    pub nodes: usize,
    pub hypers: u32,
    pub covers: u32,
    pub middle: usize,
    pub ghost ready: { Ready bytes.now nodes hypers covers } by { ready_single bytes.now nodes hypers covers },
    pub ghost behind: { middle ≡ end (hyper_layout bytes.now nodes) hypers graph_header },
}

impl<'a> Records<'a> {
    ghost use Rattle.graph.specs.Viewed.{hypers_of, covers_of, scanned_of};

    // Its hyperedges alone, its cover edges alone, and both without what a scan need not know.
    pub fn hyperedges(self) -> Hypers<'a>
        ensures { result ≡ hypers_of self.entry }
    {
        Hypers {
            bytes: self.bytes,
            nodes: self.nodes,
            count: self.hypers,
        }
    }

    pub fn cover_edges(self) -> Covers<'a>
        ensures { result ≡ covers_of self.entry }
    {
        Covers {
            bytes: self.bytes,
            nodes: self.nodes,
            count: self.covers,
            at: self.middle,
        }
    }

    pub fn scanned(self) -> Scanned<'a>
        ensures { result ≡ scanned_of self.entry }
    {
        Scanned {
            bytes: self.bytes,
            nodes: self.nodes,
            hypers: self.hypers,
            covers: self.covers,
            middle: self.middle,
        }
    }
}
