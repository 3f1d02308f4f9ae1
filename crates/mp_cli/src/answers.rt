//! The type of an answer.

/// What the program writes, and the status that it ends with.
///
/// For the input `[5]` of `merge` the text is `5` and a newline, and the status 0.
#[derive(Debug, Drop)]
pub struct Answer {
    /// The text with its newline.
    pub text: String,
    /// 0 if the command gives a result, 1 if the command is refused, 2 if the input or an
    /// argument is wrong.
    pub status: u8,
}
