//! What holds of frames and of what a framer gives, for every stream and however it is cut. The
//! functions do nothing: their clauses are the theorems.

ghost use Rattle.std.specs.Prelude.{◌≡◌, ℕ, ◌+◌, ◌^◌, ◌<◌, ◌≤◌, ◌⊎◌, List, [], ◌∷◌, ◌++◌, All, length, flat_map};
ghost use Rattle.rpc_frame.specs.declared.framer.FrameNext.{FrameNext};
ghost use Rattle.rpc_frame.specs.declared.framer.FrameNext.TheVariants.{Message, NotYet};
ghost use Rattle.rpc_frame.specs.Frames.{IsFrame, IsUnfinished, IsTooLong, IsBad, HasFrames, HasNoFrame, frame_of};
ghost use Rattle.rpc_frame.specs.Framing.{Held, IsNext, HasGiven};
ghost use Rattle.rpc_frame.specs.Streams.{Rest, IsRest, IsApart, ComesApart};

/// What waits in a framer has one answer. So each answer comes exactly where its meaning holds.
pub fn one_answer()
    ensures { (old : Held) (a b : FrameNext) (x y : Held) → IsNext old a x → IsNext old b y
        → (a ≡ b) × (x ≡ y) }
{}

/// A stream has one list of frames, with one rest that begins with none.
pub fn one_stream()
    ensures { (stream rest rest' : List ℕ) (contents contents' : List (List ℕ))
        → HasFrames stream contents rest → HasNoFrame rest
        → HasFrames stream contents' rest' → HasNoFrame rest'
        → (contents ≡ contents') × (rest ≡ rest') }
{}

/// Each stream of bytes, whatever they are, comes apart into frames and a rest of one of four kinds:
/// nothing, a frame that has begun, a header that says too much, or bytes that begin no header. And it
/// does so in one way.
pub fn each_stream()
    ensures comes { (stream : List ℕ) → ComesApart stream }
    ensures one { (stream rest rest' : List ℕ) (contents contents' : List (List ℕ))
        (kind kind' : Rest) → IsApart stream contents rest kind
        → IsApart stream contents' rest' kind'
        → (contents ≡ contents') × (rest ≡ rest') × (kind ≡ kind') }
    ensures none { (rest : List ℕ) (kind : Rest) → IsRest rest kind → HasNoFrame rest }
{}

/// Whatever the order in which a framer is fed and asked, the contents that it gave are those of
/// the frames of the whole stream that was fed, up to what waits.
pub fn given_however_cut()
    ensures new { HasGiven [] [] (record { taken = 0; content = []; waiting = [] }) }
    ensures fed { (stream piece : List ℕ) (contents : List (List ℕ)) (old : Held)
        → HasGiven stream contents old
        → HasGiven (stream ++ piece) contents (record old { waiting = old.waiting ++ piece }) }
    ensures taken { (stream : List ℕ) (contents : List (List ℕ)) (old new : Held)
        → HasGiven stream contents old → IsNext old Message new
        → HasGiven stream (contents ++ new.content ∷ []) new }

    // Any other answer says that what waits begins with no frame: these are all the frames.
    ensures all { (old new : Held) (a : FrameNext) → IsNext old a new
        → (a ≡ Message) ⊎ HasNoFrame old.waiting }
{}

/// What is bad or too long stays so, however the stream goes on.
pub fn refused_for_good()
    ensures bad { (bytes more : List ℕ) (k : ℕ) → IsBad bytes k → IsBad (bytes ++ more) k }
    ensures long { (bytes more : List ℕ) (said : ℕ) → IsTooLong bytes said
        → IsTooLong (bytes ++ more) said }
{}

/// How many bytes wait: asking takes none but a frame's, and less than a frame is not long.
pub fn waiting_is_bounded()
    ensures counted { (old : Held) (a : FrameNext) (new : Held) → IsNext old a new
        → new.taken + length new.waiting ≡ old.taken + length old.waiting }
    ensures short { (bytes : List ℕ) → IsUnfinished bytes → length bytes < 2 ^ 24 + 2 ^ 12 }
{}

/// What is written as the frame of a content is a frame of it. So a stream of such frames, however
/// it is cut, is read back as their contents in order, and then nothing waits.
pub fn written_is_read()
    ensures frame { (content : List ℕ) → length content ≤ 2 ^ 24
        → IsFrame (frame_of content) content }
    ensures stream { (contents : List (List ℕ)) (rest : List ℕ)
        → All (λ content. length content ≤ 2 ^ 24) contents
        → HasFrames (flat_map frame_of contents ++ rest) contents rest }

    // Any answer but a message says that all of them were given.
    ensures given { (contents given : List (List ℕ)) (old : Held) (a : FrameNext) (new : Held)
        → All (λ content. length content ≤ 2 ^ 24) contents
        → HasGiven (flat_map frame_of contents) given old → IsNext old a new
        → (a ≡ Message) ⊎ ((given ≡ contents) × (old.waiting ≡ []) × (a ≡ NotYet)) }

    // A content that is larger than a frame may hold is not taken for another.
    ensures long { (content more : List ℕ) → 2 ^ 24 < length content → length content < 10 ^ 15
        → IsTooLong (frame_of content ++ more) (length content) }
{}
