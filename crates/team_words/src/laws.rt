//! That words say one list of teams.
ghost use Rattle.team_words.specs.Words.{OneList};

use play_words::words_say_one_play;

/// No words say two lists of teams. So `read_teams` gives what they say, and want of memory aside it gives it wherever they say one.
pub fn words_say_one_list()
    ensures { OneList }
{
    // A law of what lies below, which does nothing either.
    words_say_one_play();
}
