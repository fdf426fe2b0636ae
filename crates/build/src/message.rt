// The message of the graph, written part by part: the hyperedges of rows and helpers, the cover edges, and the header, with the counts.
ghost use Rattle.std.specs.Prelude.{◌≡◌, ℕ, ◌+◌, ◌*◌, ◌≤◌, ◌<◌, List, [], ◌∷◌, ◌++◌, length};
ghost use Rattle.wire.specs.Bytes.{bytes};
ghost use Rattle.lists.specs.Making.{span};
ghost use Rattle.build.specs.Puts.{PutsEach, helper_of};
ghost use Rattle.wire.specs.Laid.{Laid};
ghost use Rattle.graph.specs.Format.{graph_header, cover_width};
ghost use Rattle.graph.specs.Write.{write_header, write_graph};
ghost use Rattle.reduction.specs.Built as built;
ghost use Rattle.transitions.specs.Held.{LeadTo};
ghost use Rattle.transitions.specs.Views.{model_of, rows_of, list_of};
ghost use Rattle.records.specs.Bytes.{single_width, hypers_bytes, next_edges, helper_list, rows_hypers, row_bytes, rows_bytes, helper_bytes, helpers_bytes, cover_bytes, covers_of, RowFits, Narrow, HelpersFit};
ghost use Rattle.build.specs.Built.{Writable};
ghost use Rattle.build.specs.Told.{ToldHypers};

use syntax::{Action, Quantifier, Row};
use transitions::{AcceptedRows, Out, Table};
use value::Bound;
use wire::Width;

// What `put` writes for one state after another, each where the one before it ends.
fn put_each<F: Fn(&mut [u8], usize, u32) -> usize>(
    room: &mut [u8],
    at: usize,
    n: u32,
    put: F,
) -> usize
    requires { (bytes : ℕ → List ℕ) × PutsEach (F.pre put) (F.post put) bytes n × (at + length (span bytes 0 n) ≤ length room.old) }
    ensures { (bytes : ℕ → List ℕ) → PutsEach (F.pre put) (F.post put) bytes n → at + length (span bytes 0 n) ≤ length room.old
        → Laid room.old at (span bytes 0 n) room.new result }
{
    let mut next = at;
    for a in 0..n {
        next = put(room, next, a);
    }
    next
}

// Two hyperedges of a node, each with one target at weight 0.
fn put_both(room: &mut [u8], at: usize, v: u32, node: u32, other: u32) -> usize
    requires { at + 2 * single_width ≤ length room.old }
    ensures { Laid room.old at (hypers_bytes v ((built.to 0 node ∷ []) ∷ (built.to 0 other ∷ []) ∷ [])) room.new result }
{
    let second = records::put_single(room, at, v, node);
    records::put_single(room, second, v, other)
}

// The hyperedges of an EX or AX in state a, whose node is v.
fn put_next(
    room: &mut [u8],
    at: usize,
    table: Table,
    a: u32,
    v: u32,
    q: Quantifier,
    action: Action,
    bound: Bound,
    shift: u32,
) -> usize
    requires state { a < table.model.states }
    requires shift_fits { shift + table.model.states ≤ 4096 }
    requires inside { at + length (hypers_bytes v (next_edges q (built.leaving (model_of table.model) a) action bound shift)) ≤ length room.old }
    ensures { Laid room.old at (hypers_bytes v (next_edges q (built.leaving (model_of table.entry.model) a) action bound shift)) room.new result }
{
    records::put_next(room, at, v, table.out_of(a), q, action, bound, shift)
}

// The hyperedges of a row's nodes, over all states; an until's have none. Which kind of row it is, is asked once.
fn put_row_states(room: &mut [u8], at: usize, table: Table, r: u32, row: Row) -> usize
    requires row_fits { RowFits table.model.states r row }
    requires inside { at + length (row_bytes (model_of table.model) r row) ≤ length room.old }
    ensures { Laid room.old at (row_bytes (model_of table.entry.model) r row) room.new result }
{
    let m = table.model;
    let n = m.states;
    let first = n * r;
    match row {
        Row::True => put_each(room, at, n, |room, at, a| {
            records::put_head(room, at, a + first, 0)
        }),
        Row::False => at,
        Row::Proposition(i) => put_each(room, at, n, |room, at, a| {
            records::put_leaf(room, at, a + first, m.holds(a, i))
        }),
        Row::Negation(i) => put_each(room, at, n, |room, at, a| {
            records::put_leaf(room, at, a + first, !m.holds(a, i))
        }),
        Row::And(l, k) => put_each(room, at, n, |room, at, a| {
            records::put_pair(room, at, a + first, a + n * l, 0, a + n * k)
        }),
        Row::Or(l, k) => put_each(room, at, n, |room, at, a| {
            put_both(room, at, a + first, a + n * l, a + n * k)
        }),
        Row::Next(q, action, l, bound) => put_each(room, at, n, |room, at, a| {
            put_next(room, at, table, a, a + first, q, action, bound, n * l)
        }),
        Row::Until(_, _, _, _) => at,
    }
}

// How many hyperedges a row has in n states, told by their bytes where there are as many targets as hyperedges, or none.
fn hypers_in(row: Row, n: u32, bytes: usize) -> usize
    ensures { ToldHypers row n bytes result }
{
    match row {
        Row::And(_, _) => n as usize,
        Row::Or(_, _) => bytes / records::SINGLE,
        Row::Next(q, _, _, _) => match q {
            Quantifier::Some => bytes / records::SINGLE,
            Quantifier::Every => n as usize,
        },
        _ => bytes / graph::HYPER,
    }
}

// Where the next part belongs, and how many hyperedges stand before it.
#[derive(Drop)]
struct Put {
    next: usize,
    hypers: usize,
}

// The hyperedges of all rows' nodes.
fn put_rows(room: &mut [u8], at: usize, table: Table, f: AcceptedRows) -> Put
    requires nodes_fit { table.model.states * f.rows ≤ 4096 }
    requires inside { at + length (rows_bytes (model_of table.model) 0 (rows_of f)) ≤ length room.old }
    ensures laid { Laid room.old at (rows_bytes (model_of table.entry.model) 0 (rows_of f.entry)) room.new result.next }
    ensures hypers_value { result.hypers ≡ length (rows_hypers (model_of table.entry.model) 0 (rows_of f.entry)) }
{
    let mut next = at;
    let mut hypers: usize = 0;
    for r in 0..f.rows {
        let row = f.row(r);
        let end = put_row_states(room, next, table, r, row);
        hypers += hypers_in(row, table.model.states, end - next);
        next = end;
    }
    Put { next, hypers }
}

// The hyperedges of the helper node of state a at place h, for an until of these operands.
fn put_helper(
    room: &mut [u8],
    at: usize,
    a: u32,
    h: u32,
    out: Out,
    q: Quantifier,
    l: u32,
    k: u32,
) -> usize
    requires nodes_fit { (a < out.states) × (out.states * h + out.states ≤ 4096) × (out.states * l + out.states ≤ 4096) × (out.states * k + out.states ≤ 4096) }
    requires few { out.many < 65535 }
    requires named { LeadTo out.states (list_of out) }
    requires inside { at + length (hypers_bytes (a + out.states * h) (helper_list out.states a q l k h (list_of out))) ≤ length room.old }
    ensures { Laid room.old at (hypers_bytes (a + out.entry.states * h) (helper_list out.entry.states a q l k h (list_of out.entry)))
        room.new result }
{
    let n = out.states;
    let v = a + n * h;
    let left = a + n * l;
    let shift = n * h;
    let second = records::put_single(room, at, v, a + n * k);
    match q {
        Quantifier::Some => records::put_steps(room, second, q, v, out, left, shift),
        Quantifier::Every => {
            if out.many < 1 {
                return second;
            }
            let head = records::put_head(room, second, v, out.many + 1);
            let targets = records::put_target(room, head, 0, left);
            records::put_steps(room, targets, q, v, out, left, shift)
        }
    }
}

// The same, for an until whose helpers stand at place h, over the state's transitions.
fn put_helper_state(
    room: &mut [u8],
    at: usize,
    table: Table,
    a: u32,
    h: u32,
    q: Quantifier,
    l: u32,
    k: u32,
) -> usize
    requires state { a < table.model.states }
    requires nodes_fit { (table.model.states * h + table.model.states ≤ 4096) × (l < h) × (k < h) }
    requires narrow { Narrow (model_of table.model) }
    requires inside { at + length (helper_of (model_of table.model) h q l k a) ≤ length room.old }
    ensures { Laid room.old at (helper_of (model_of table.entry.model) h q l k a) room.new result }
{
    put_helper(room, at, a, h, table.out_of(a), q, l, k)
}

// The hyperedges of an until row's helper nodes, over all states.
fn put_helper_states(
    room: &mut [u8],
    at: usize,
    table: Table,
    h: u32,
    q: Quantifier,
    l: u32,
    k: u32,
) -> usize
    requires nodes_fit { (table.model.states * h + table.model.states ≤ 4096) × (l < h) × (k < h) }
    requires narrow { Narrow (model_of table.model) }
    requires inside { at + length (helper_bytes (model_of table.model) h q l k) ≤ length room.old }
    ensures { Laid room.old at (helper_bytes (model_of table.entry.model) h q l k) room.new result }
{
    put_each(room, at, table.model.states, |room, at, a| {
        put_helper_state(room, at, table, a, h, q, l, k)
    })
}

// The hyperedges of all helper nodes.
fn put_helpers(room: &mut [u8], at: usize, table: Table, f: AcceptedRows) -> usize
    requires helpers_fit { HelpersFit (model_of table.model) f.rows (built.untils (rows_of f)) }
    requires inside { at + length (helpers_bytes (model_of table.model) f.rows (built.untils (rows_of f))) ≤ length room.old }
    ensures { Laid room.old at (helpers_bytes (model_of table.entry.model) f.entry.rows (built.untils (rows_of f.entry))) room.new result }
{
    let mut next = at;
    let mut h = f.rows;
    for i in 0..f.rows {
        let Row::Until(q, l, r, _) = f.row(i) else {
            continue;
        };
        next = put_helper_states(room, next, table, h, q, l, r);
        h += 1;
    }
    next
}

// The header of a graph message.
fn put_header(room: &mut [u8], long: u32, n: u32, h: u32, c: u32) -> usize
    requires { graph_header ≤ length room.old }
    ensures { Laid room.old 0 (write_header long n h c) room.new result }
{
    wire::store(room, 0, Width::Four, long);
    wire::store(room, wire::VERSION_AT, Width::One, graph::VERSION);
    wire::store(room, wire::KIND_AT, Width::One, graph::KIND);
    wire::store(room, graph::NODES_AT, Width::Two, n);
    wire::store(room, graph::HYPERS_AT, Width::Four, h);
    wire::store(room, graph::COVERS_AT, Width::Two, c);
    graph::HEADER
}

// A cover edge, with its bound as a number.
fn put_cover(room: &mut [u8], at: usize, source: u32, code: u32, target: u32) -> usize
    requires { at + cover_width ≤ length room.old }
    ensures { Laid room.old at (bytes 2 source ++ bytes 4 code ++ bytes 2 target) room.new result }
{
    wire::store(room, at, Width::Two, source);
    wire::store(room, at + graph::COVER_BOUND_AT, Width::Four, code);
    wire::store(room, at + graph::COVER_TARGET_AT, Width::Two, target);
    at + graph::COVER
}

// The cover edges of an until row's nodes, over all states.
fn put_cover_states(room: &mut [u8], at: usize, n: u32, r: u32, h: u32, bound: Bound) -> usize
    requires nodes_fit { (n * h + n ≤ 4096) × (r < h) }
    requires inside { at + length (cover_bytes n r h bound) ≤ length room.old }
    ensures { Laid room.old at (cover_bytes n r h bound) room.new result }
{
    let code = bound.code();
    put_each(room, at, n, |room, at, a| {
        put_cover(room, at, a + n * r, code, a + n * h)
    })
}

// All cover edges: one for each state and until row, to its helper.
fn put_covers(room: &mut [u8], at: usize, n: u32, f: AcceptedRows) -> usize
    requires nodes_fit { n * (f.rows + length (built.untils (rows_of f))) ≤ 4096 }
    requires inside { at + length (covers_of n (rows_of f)) ≤ length room.old }
    ensures { Laid room.old at (covers_of n (rows_of f.entry)) room.new result }
{
    let mut next = at;
    let mut h = f.rows;
    for r in 0..f.rows {
        let Row::Until(_, _, _, b) = f.row(r) else {
            continue;
        };
        next = put_cover_states(room, next, n, r, h, b);
        h += 1;
    }
    next
}

// The bytes of a graph that fits its room, and how many they are. Its header is written last, when its hyperedges are counted: those of
// helpers have as many targets as they are, and one more for each until and transition.
pub fn write(table: Table, f: AcceptedRows, untils: u32, room: &mut [u8]) -> usize
    requires untils_value { untils ≡ length (built.untils (rows_of f)) }
    requires writable { Writable (built.graph_of (model_of table.model) (rows_of f)) room.old }
    ensures { Laid room.old 0 (write_graph (built.graph_of (model_of table.entry.model) (rows_of f.entry))) room.new result }
{
    let n = table.model.states;
    let rows = put_rows(room, graph::HEADER, table, f);
    let covers = put_helpers(room, rows.next, table, f);
    let end = put_covers(room, covers, n, f);
    let steps = ((table.model.transitions * untils) as usize) * graph::TARGET;
    let helpers = (covers - rows.next - steps) / records::SINGLE;
    let hypers = rows.hypers + helpers;
    let nodes = n * (f.rows + untils);
    put_header(room, end as u32, nodes, hypers as u32, n * untils);
    end
}
