// What the program writes for what it reads.
#![tactic(auto)]

ghost use Rattle.std.specs.Prelude.{◌≡◌, ◌+◌, ◌≤◌, length};
ghost use Rattle.std.specs.Counts.{IsPrefixLen};
ghost use Rattle.decimals.specs.Writer.{Wrote};
ghost use Rattle.settling.specs.Answer.{read_settled, bytes_of};
ghost use Rattle.report.specs.Output.{read_input, output_of, left_of, report_length, report_out, report_bytes, report_values, zero_bytes, zero_values};

use decimals::Writer;
use verdict::AllStates;
use wire::Width;

// Writes the output for a model and a formula; the budget is n.
fn put_answer(m: &[u8], f: &[u8], bytes: &mut [u8], values: &mut [u64], out: &mut Writer<'_>)
    requires { out.old.at + 8192 ≤ length out.old.room.now }
    ensures wrote { Wrote out.old (output_of (read_settled m.now f.now bytes.old values.old)) out.new }
    ensures bytes_after { bytes.new ≡ bytes_of (read_settled m.now f.now bytes.old values.old) bytes.old }
    ensures values_after { values.new ≡ left_of (read_settled m.now f.now bytes.old values.old) values.old }
{
    let budget = verdict::nodes(m, f);
    match verdict::settle(m, f, budget, bytes, values) {
        Ok(
            AllStates::Settled {
                count,
                first,
                states,
                ..
            },
        ) => {
            let p = wire::number_at(m, model::PROPOSITIONS_AT, Width::One);
            let (first, states) = (first as usize, states as usize);
            pieces::put_settled(out, f, p, count, &values[first..first + states]);
        }
        Ok(AllStates::Spent { .. }) => pieces::put_refused(out, 1, 0),
        Err(e) => pieces::put_refused(out, e.number(), e.offset),
    }
}

// Writes the output for an input.
fn put_output(input: &[u8], bytes: &mut [u8], values: &mut [u64], out: &mut Writer<'_>)
    requires { out.old.at + 8192 ≤ length out.old.room.now }
    ensures wrote { Wrote out.old (output_of (read_input input.now bytes.old values.old)) out.new }
    ensures bytes_after { bytes.new ≡ bytes_of (read_input input.now bytes.old values.old) bytes.old }
    ensures values_after { values.new ≡ left_of (read_input input.now bytes.old values.old) values.old }
{
    match pieces::model_end(input) {
        Err(e) => pieces::put_refused(out, e.number(), e.offset),
        Ok(k) => {
            let (m, f) = input.split_at(k);
            put_answer(m, f, bytes, values, out);
        }
    }
}

// The program's output for its input, at the front of a room of at least 8,192 bytes; its length is returned.
pub fn report(input: &[u8], bytes: &mut [u8], values: &mut [u64], out: &mut [u8]) -> usize
    ensures value { result ≡ report_length (read_input input.now bytes.old values.old) out.old }
    ensures out_after { out.new ≡ report_out (read_input input.now bytes.old values.old) out.old }
    ensures bytes_after { bytes.new ≡ report_bytes (read_input input.now bytes.old values.old) bytes.old out.old }
    ensures values_after { values.new ≡ report_values (read_input input.now bytes.old values.old) values.old out.old }
    ensures prefix_len { IsPrefixLen result out.new }
{
    if out.len() < 8192 {
        return 0;
    }
    let mut written = Writer { room: out, at: 0 };
    put_output(input, bytes, values, &mut written);
    written.at
}

// The same with rooms of the program's own: 65,536 bytes and 8,192 numbers, all zero.
pub fn program(input: &[u8], out: &mut [u8]) -> usize
    ensures value { result ≡ report_length (read_input input.now zero_bytes zero_values) out.old }
    ensures out_after { out.new ≡ report_out (read_input input.now zero_bytes zero_values) out.old }
    ensures prefix_len { IsPrefixLen result out.new }
{
    let mut bytes = [0u8; 65536];
    let mut values = [0u64; 8192];
    report(input, &mut bytes, &mut values, out)
}
