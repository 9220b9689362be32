/// Why a line of a log's text is no line.
#[derive(Clone, Copy)]
pub enum LineRefusal {
    /// It isn't spelled as a line, a number is out of its range, or its weights, all of known symbols, don't ascend.
    Form,
    /// A name is no symbol's name.
    Name,
}
