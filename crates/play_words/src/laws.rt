//! That words say one play.
ghost use Rattle.play_words.specs.Words.{OnePlay};

/// No words say two plays. So `read_play` gives what they say, and want of memory aside it gives it wherever they say one.
pub fn words_say_one_play()
    ensures { OnePlay }
{}
