//! What is proved of the texts of lines. The functions do nothing: a law is a contract.
ghost use Rattle.circ_line.specs.Plain.{OneText, NoFeedWithin};

/// Two lines in range that have one text are the same, and a text has no line feed in it.
pub fn texts_are_told_apart()
    ensures one { OneText }
    ensures within { NoFeedWithin }
{}
