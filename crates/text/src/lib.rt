#![tactic(auto)]
// What the program writes: the lines of a plan, or of a refusal, in a lent buffer.
ghost use Rattle.std.specs.Prelude.{◌≤◌};
ghost use Rattle.spec.specs.Refusal.{number_of};
ghost use Rattle.spec.specs.Text.{refused_line};
ghost use Rattle.putfields.specs.Put.{Put};

pub mod figures; // figures.rt: the lines of total, widest and sliced indices
mod printout; // printout.rt: a plan as it is printed

pub use printout::Printout;
use spec::Refusal;
use steplines::digits::Text;

// Stays: `result ≤ 131072`: a bound of a number, which a caller's buffer is made by.

// Stays: the line is of any number, as in its definition; `put_refusal` puts a refusal's.
/// Puts the line of a refusal's number at the front of a buffer, and returns how long it is.
pub fn put_refused(out: &mut [u8], number: u8) -> usize
    ensures written { Put out.old out.new 0 result (refused_line number) }
    ensures short { result ≤ 131072 }
{
    let mut text = Text::new(out);
    text.put_line(b"refused", u64::from(number));
    text.len()
}

/// Puts the line of a refusal at the front of a buffer, and returns how long it is.
pub fn put_refusal(out: &mut [u8], refusal: Refusal) -> usize
    ensures written { Put out.old out.new 0 result (refused_line (number_of refusal)) }
    ensures short { result ≤ 131072 }
{
    put_refused(out, refusal.number())
}
