// The graph of an accepted model and formula, written into a lent room.
#![tactic(auto)]

mod message;

ghost use Rattle.std.specs.Prelude.{◌≡◌, ◌+◌, ◌*◌, ◌≤◌, length};
ghost use Rattle.reduction.specs.Built as built;
ghost use Rattle.transitions.specs.Views.{model_of, rows_of};
ghost use Rattle.build.specs.Built.{built_of, built_room, enough};

use refusal::Fault;
use sizing::Size;
use transitions::{AcceptedModel, AcceptedRows, Table};

// The number of nodes of the graph of a model with n states and an accepted formula.
pub fn count_nodes(n: u32, f: AcceptedRows) -> u32
    requires { n ≤ 256 }
    ensures { result ≡ n * (f.entry.rows + length (built.untils (rows_of f.entry))) }
{
    n * (f.rows + sizing::count_untils(f))
}

// Whether hyperedges of this size, with so many nodes and cover edges, pass no limit, and rooms of so many bytes and values are large enough.
fn is_enough(nodes: u32, covers: u32, size: Size, bytes: usize, values: usize) -> bool
    requires { covers ≤ nodes }
    ensures { result ≡ enough nodes covers size bytes values }
{
    if sizing::too_large(nodes, size) {
        return false;
    }
    let long = sizing::message_length(size, covers);
    if bytes < long {
        return false;
    }
    let twice = (nodes as usize) * 2;
    twice <= values
}

// The graph of an accepted model and formula, and its length: SIZE and ROOM are decided before anything is written.
// A room for so many values is lent beside it, and must be large enough too.
// The exact size takes a look at every label and transition: it is worked out only where it is not certain without it that all fits.
pub fn build(
    m: AcceptedModel,
    f: AcceptedRows,
    values: usize,
    room: &mut [u8],
) -> Result<usize, Fault>
    ensures value { result ≡ built_of (built.graph_of (model_of m.entry) (rows_of f.entry)) room.old values }
    ensures room_after { room.new ≡ built_room (built.graph_of (model_of m.entry) (rows_of f.entry)) room.old values }
{
    let untils = sizing::count_untils(f);
    let starts = m.starts();
    let table = Table {
        model: m,
        starts: &starts,
    };
    let nodes = m.states * (f.rows + untils);
    let covers = m.states * untils;
    let bytes = room.len();
    let most = sizing::total_most(table, f);
    if is_enough(nodes, covers, most, bytes, values) {
        return Ok(message::write(table, f, untils, room));
    }
    let size = sizing::total_size(table, f);
    if sizing::too_large(nodes, size) {
        return Err(refusal::SIZE);
    }
    if is_enough(nodes, covers, size, bytes, values) {
        return Ok(message::write(table, f, untils, room));
    }
    Err(refusal::ROOM)
}
