// Reads a model and a formula from standard input, and writes the answer for every state. It only moves bytes: what is written is
// `report`'s.
#![tactic(auto)]

ghost use Rattle.std.specs.Prelude.{IfSome, OnOk, OnErr, take};
ghost use Rattle.std.specs.Io.KnownBytes.{Appends};
ghost use Rattle.intake.specs.Fronts.{AppendsFront};
ghost use Rattle.report.specs.Output.{read_input, output_of, zero_bytes, zero_values};

use std::io::{Read, Result, Write};

// One byte more than the longest input is read, so that a longer one shows. What is written is the output for the bytes that the
// reader says it gives; at an error some front of that output is written, which may be none of it.
fn answer<R: Read, W: Write>(from: &mut R, to: &mut W) -> Result<()>
    ensures ok { OnOk result (IfSome (R.remaining from.old) (λ xs.
        Appends (W.contents to.old) (W.contents to.new) (output_of (read_input (take 8193 xs) zero_bytes zero_values)))) }
    ensures err { OnErr result (IfSome (R.remaining from.old) (λ xs.
        AppendsFront (W.contents to.old) (W.contents to.new) (output_of (read_input (take 8193 xs) zero_bytes zero_values)))) }
{
    let mut input = [0u8; 8193];
    let mut out = [0u8; 8192];
    let got = intake::fill(from, &mut input)?;
    let len = report::program(&input[..got], &mut out);
    intake::put(to, &out[..len])
}

fn main(rt: HostRuntime) -> Result<()> {
    let mut from = rt.stdin();
    let mut to = rt.stdout();
    answer(&mut from, &mut to)
}
