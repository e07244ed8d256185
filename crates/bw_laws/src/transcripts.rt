//! Laws that join the transcripts of one script, and its reading.
ghost use Rattle.bw_laws.specs.Transcripts.{ReadingFollowsTheTranscript, ThereIsOneTranscript};

/// Law: a script has one transcript, whatever its threads did.
///
/// Two transcripts of its lines are the same text, and lead to the same state. Premise: neither has
/// a line `error 70 NotStarted` or `error 71 OutOfMemory`.
pub fn there_is_one_transcript()
    ensures { ThereIsOneTranscript }
{}

/// Law: a script that is read leads to the state of its transcript, where each leaf uses its
/// slices.
///
/// Premise: the transcript has no line `error 70 NotStarted` or `error 71 OutOfMemory`.
pub fn reading_follows_the_transcript()
    ensures { ReadingFollowsTheTranscript }
{}
