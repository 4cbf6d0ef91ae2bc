//! A law of the words that are taken.

ghost use Rattle.command_words.specs.Laws.{WordsAskForOneRequest};

/// Words are taken as one request at most.
pub fn words_ask_for_one_request()
    ensures { WordsAskForOneRequest }
{}
