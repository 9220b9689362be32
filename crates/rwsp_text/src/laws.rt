// Laws of numbers and of tables of lines. Each function's contract is the law.
ghost use Rattle.rwsp_text.specs.Kinds.{LinesAreRead, LinesSayOne, LinesAreBlankless};
ghost use Rattle.rwsp_text.specs.Numbers.{PrintedIsRead};

/// A number below a thousand million that is printed and read is the number.
#[tactic(auto, using(crate::proofs::Printed::printed_is_read))]
pub fn printed_is_read()
    ensures { PrintedIsRead }
{}

/// In a table of kinds that can be read a line is read as what it says, and what is read is a line that says it.
#[tactic(auto, using(crate::proofs::KindLaws::lines_are_read))]
pub fn lines_are_read<X>()
    ensures { LinesAreRead X }
{}

/// A line of such a table says one thing.
#[tactic(auto, using(crate::proofs::KindLaws::lines_say_one))]
pub fn lines_say_one<X>()
    ensures { LinesSayOne X }
{}

/// No word of a line of such a table has a blank, a tab or the end of a line in it.
#[tactic(auto, using(crate::proofs::KindLaws::lines_are_blankless))]
pub fn lines_are_blankless<X>()
    ensures { LinesAreBlankless X }
{}
