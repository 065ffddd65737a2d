//! What a person is told who looks for the input in another place. No promise rests on it.

/// What is told where standard input is a terminal.
pub(crate) const AT_A_TERMINAL: &str =
    "twarp reads from standard input, here a terminal: type a case and end it by Ctrl-D, or give a file by < FILE";

/// A tip where a word of the command line seems to name the input, which no word does.
pub(crate) fn tip_for(words: &[String]) -> Option<&'static str> {
    if words.iter().skip(1).any(|word| is_like_a_file(word)) {
        Some("tip: the input comes from standard input, as in: twarp seq --stop 20 < case.spp")
    } else {
        None
    }
}

/// Whether a word of a command line looks like the name of a file, or stands for standard input.
fn is_like_a_file(word: &str) -> bool {
    word == "-" || (!word.starts_with('-') && (word.contains('.') || word.contains('/')))
}
