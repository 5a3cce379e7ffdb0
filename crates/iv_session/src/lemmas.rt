//! Lemmas on the definitions: functions that do nothing, whose contracts are the lemmas.
ghost use Rattle.std.specs.Prelude.{◌≡◌, ◌↔◌, ◌⊎◌, ℕ, ◌+◌, ◌≤◌, ◌<◌, ◌++◌, ◌∷◌, [], List, Some, None, Result, Ok, Err, length, IsNone};
ghost use Rattle.std.specs.Io.KnownBytes.{Appends};
ghost use Rattle.std.specs.List.{flat_map};
ghost use Rattle.iv_lines.specs.Bytes.{line_feed};
ghost use Rattle.iv_lines.specs.Lines.{lines, HasNoFeed};
ghost use Rattle.iv_workspace.specs.States.{State};
ghost use Rattle.iv_session.specs.Endings.{Ran, AreSoundStreams, HadMemory, IsTooLongAt};
ghost use Rattle.iv_session.specs.Limits.{line_sizes, AreWithin, Passes, first_over};
ghost use Rattle.iv_session.specs.Stops.{Stopped};
ghost use Rattle.iv_session.specs.Streams.{Streams};
ghost use Rattle.iv_session.specs.Written.{messages_from};
ghost use Rattle.iv_session.specs.declared.script.RunCause.{RunCause};
ghost use Rattle.iv_session.specs.declared.script.RunCause.TheVariants.{Output, Messages};
ghost use Rattle.iv_session.specs.declared.script.RunFault.{RunFault};
ghost use Rattle.iv_session.specs.declared.script.Summary.{Summary};

/// The sizes of lines: the bytes before each LF, a CR included, and those of a last line without LF; there are as many as lines.
pub fn sizes_are_of_lines()
    ensures none { line_sizes [] ≡ [] }
    ensures ended { (line rest : List ℕ) → HasNoFeed line → line_sizes ((line ++ line_feed ∷ []) ++ rest) ≡ length line ∷ line_sizes rest }
    ensures last { (line : List ℕ) → HasNoFeed line → 0 < length line → line_sizes line ≡ length line ∷ [] }
    ensures as_many { (text : List ℕ) → length (line_sizes text) ≡ length (lines text) }
{}

/// The first line that passes a limit is the one after lines that pass none; if no line passes one, there is none.
pub fn first_over_is_first()
    ensures none { (most_lines most : ℕ) (sizes : List ℕ) → AreWithin most_lines most sizes → first_over most_lines most 1 sizes ≡ None }
    ensures first { (most_lines most : ℕ) (front back : List ℕ) → AreWithin most_lines most front → Passes most_lines most (length front + 1) back → first_over most_lines most 1 (front ++ back) ≡ Some (length front + 1) }
{}

/// A run that ended neither by a stream nor out of memory is reported as too long exactly if some line passes a limit, and at the first.
///
/// A run that is done has no such line, and no run goes on after one, whatever ends it.
pub fn too_long_is_exact()
    ensures exact { (old new : State) (before after : Streams) (most_lines most n : ℕ) (text : List ℕ) (ended : Result Summary RunFault) → before.input.remaining ≡ Some text → Ran old new before after most_lines most ended → AreSoundStreams after → HadMemory ended → IsTooLongAt n ended ↔ (first_over most_lines most 1 (line_sizes text) ≡ Some n) }
    ensures done { (old new : State) (before after : Streams) (most_lines most : ℕ) (text : List ℕ) (summary : Summary) → before.input.remaining ≡ Some text → Ran old new before after most_lines most (Ok summary) → first_over most_lines most 1 (line_sizes text) ≡ None }
    ensures noticed { (old new : State) (before after : Streams) (most_lines most n : ℕ) (text : List ℕ) (fault : RunFault) → before.input.remaining ≡ Some text → Ran old new before after most_lines most (Err fault) → first_over most_lines most 1 (line_sizes text) ≡ Some n → fault.line ≤ n }
    ensures ran { (old new : State) (before after : Streams) (most_lines most n : ℕ) (text : List ℕ) (fault : RunFault) → before.input.remaining ≡ Some text → Ran old new before after most_lines most (Err fault) → (fault.cause ≡ Output) ⊎ (fault.cause ≡ Messages) → first_over most_lines most 1 (line_sizes text) ≡ Some n → fault.line < n }
{}

/// A script that ends early has handed on all that the lines before wrote, if the output or the messages hold nothing back.
pub fn lines_before_are_handed_on()
    ensures output { (old new : State) (before after : Streams) (most_lines most n : ℕ) (cause : RunCause) (stopped : Stopped old new before after most_lines most n cause) → IsNone before.output.held → Appends before.output.reached stopped.at.streams.output.reached (flat_map (λ w. w.output) stopped.written) }
    ensures messages { (old new : State) (before after : Streams) (most_lines most n : ℕ) (cause : RunCause) (stopped : Stopped old new before after most_lines most n cause) → IsNone before.messages.held → Appends before.messages.reached stopped.at.streams.messages.reached (messages_from 1 stopped.written) }
{}
