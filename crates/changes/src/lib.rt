// What a round changed: the nodes are listed, and the first half is brought up to the second at them. For graphs small enough.
#![tactic(auto)]

ghost use Rattle.std.specs.Prelude.{◌≡◌, ◌+◌, ◌≤◌, length, take};
ghost use Rattle.halves.specs.Room.{Raised};
ghost use Rattle.changes.specs.Listed.{Fallen, Listed, Names};

// Lists the nodes whose numbers differ in the halves, from the front of a list that has room for all, and gives how many they are.
pub fn list_changed(n: usize, nodes: &mut [u16], room: &[u64]) -> usize
    requires both_halves { n + n ≤ length room.now }
    requires room_for_all { (n ≤ length nodes.old) × (n ≤ 65535) }
    requires fallen { Fallen n room.now }
    ensures { Listed n n result room.now nodes.new }
{
    let mut many: usize = 0;
    for v in 0..n {
        if room[v] != room[n + v] {
            nodes[many] = v as u16;
            many += 1;
        }
    }
    many
}

// Brings the first half up to the second, which differs at none but the nodes that are listed: the front of the list, and no more of it.
pub fn raise_changed(n: usize, nodes: &[u16], room: &mut [u64])
    requires both_halves { n + n ≤ length room.old }
    requires names { Names n room.old nodes.now }
    ensures { Raised n n room.old room.new }
{
    for node in nodes {
        let v = *node as usize;
        room[v] = room[n + v];
    }
}

// The nodes that a round changed: the first of a list that has room for all.
#[derive(Drop)]
pub struct Changed<const M: usize> {
    pub nodes: [u16; M],
    pub many: usize,
}

impl<const M: usize> Changed<M> {
    // Lists the nodes whose numbers differ in the halves.
    pub fn list(&mut self, n: usize, room: &[u64])
        requires both_halves { n + n ≤ length room.now }
        requires room_for_all { (n ≤ M) × (n ≤ 65535) }
        requires fallen { Fallen n room.now }
        ensures { Listed n n self.new.many room.now self.new.nodes }
    {
        self.many = list_changed(n, &mut self.nodes, room);
    }

    // The nodes that are listed.
    pub fn listed(&self) -> &[u16]
        requires { self.now.many ≤ M }
        ensures { result.now ≡ take self.now.many self.now.nodes }
    {
        &self.nodes[..self.many]
    }

    // Brings the first half up to the second, which differs at the nodes that are listed.
    pub fn raise(&self, n: usize, room: &mut [u64])
        requires both_halves { n + n ≤ length room.old }
        requires listed { Listed n n self.now.many room.old self.now.nodes }
        ensures { Raised n n room.old room.new }
    {
        raise_changed(n, self.listed(), room);
    }
}
