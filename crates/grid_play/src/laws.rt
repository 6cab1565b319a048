//! What the definitions say among themselves. The functions do nothing: their contracts are the laws.
ghost use Rattle.play_words.specs.Words.{OnePlay};
ghost use Rattle.grid_play.specs.Bounds.{SessionsAreBounded};
ghost use Rattle.grid_play.specs.OneConversation.{OneConversation};
ghost use Rattle.grid_play.specs.ServedTalks.{ServedIsATalk, StatusesTell};
ghost use Rattle.grid_play.specs.Talks.{FirstCrewsAscend, OneTalk, SaidCrewsFit, SaidHubsAreValid, SaidNodesFit, TalksKeepNumbers, TalksStand};

use caps_merge::{beats_give_one_answer, bodies_give_one_answer, registrations_give_one_answer};
use http_frames::{one_head, one_reading, refused_heads_stay, stays};
use hub_conn::conversations_find_spent_last;
use json_spans::{a_text_is_read_one_way, a_text_is_refused_one_way};
use node_client::replies_say_one_thing;
use play_words::words_say_one_play;
use request_laws::{
    calls_keep_the_clock, calls_keep_the_newest_request, polls_are_early, starts_run_out,
};

/// The words and the bytes fix the conversation: where no step was out of memory, its end, the steps, what is written, and where they
/// lead are a function of the two. So `run` with status 0 does and writes one thing for the same words and bytes.
pub fn one_conversation()
    ensures words { OnePlay }
    ensures conversation { OneConversation }
{
    // Laws of what lies below, which do nothing either.
    words_say_one_play();
    a_text_is_read_one_way();
    a_text_is_refused_one_way();
    bodies_give_one_answer();
    registrations_give_one_answer();
    beats_give_one_answer();
    replies_say_one_thing();
    one_reading();
    conversations_find_spent_last();
}

/// In a conversation of `run` all pauses of a New Session whose client did not leave but the last end before its time is over, so there are at most a fifteenth of
/// that time's milliseconds and one more; and it is started at most once for each node that is registered as it comes.
pub fn sessions_are_bounded()
    ensures { SessionsAreBounded }
{
    // Laws of what lies below, which do nothing either.
    bodies_give_one_answer();
    starts_run_out();
    polls_are_early();
    calls_keep_the_newest_request();
    calls_keep_the_clock();
}

/// From wherever a hub, its nodes in memory and its clock stand, the bytes of a connection fix the conversation: where no step was out
/// of memory, its end, the steps, what is written, and where they lead. So connections that are served one behind the other over one hub
/// are a function of their bytes.
pub fn one_talk()
    ensures one { OneTalk }
    ensures numbers { TalksKeepNumbers }
    ensures crews { FirstCrewsAscend }
{
    // Laws of what lies below, which do nothing either.
    a_text_is_read_one_way();
    a_text_is_refused_one_way();
    bodies_give_one_answer();
    registrations_give_one_answer();
    beats_give_one_answer();
    replies_say_one_thing();
    one_reading();
    conversations_find_spent_last();
}

/// A conversation that ended before its input did is that of longer bytes too: what stands behind its end changes nothing.
pub fn talks_stand()
    ensures { TalksStand }
{
    // Laws of what lies below, which do nothing either.
    stays();
    one_head();
    refused_heads_stay();
}

/// A node that words say is one that a crew may have, and all nodes of a play are; the hub that they say can be made.
pub fn said_nodes_fit()
    ensures node { SaidNodesFit }
    ensures crew { SaidCrewsFit }
    ensures hub { SaidHubsAreValid }
{}

/// A connection that was served by a hub of one thread, by nodes in memory and over a clock in memory, is one conversation from where
/// these stood to where they stand. A failed read or write that the status of its end tells has happened.
pub fn served_is_a_talk()
    ensures talk { ServedIsATalk }
    ensures statuses { StatusesTell }
{}
