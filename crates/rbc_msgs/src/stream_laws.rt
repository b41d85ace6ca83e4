//! Laws of all streams, independent of the code that reads them.

ghost use Rattle.std.specs.Prelude.{◌≡◌, ◌↔◌, ℕ, ◌<◌, ◌++◌, List, length, Option, Result, Ok, Err};
ghost use Rattle.rbc_msgs.specs.TrainText.{TrainText};
ghost use Rattle.rbc_msgs.specs.TrainSpelling.{SpellsTrain};
ghost use Rattle.rbc_msgs.specs.TrainReading.{read_train};
ghost use Rattle.rbc_msgs.specs.Streams.{IsRest, IsEnd, IsFirstFault, ShowsFault, Spell, Adds, Fed, HadMemory};
ghost use Rattle.rbc_msgs.specs.declared.fault.MsgFault.{MsgFault};
ghost use Rattle.rbc_msgs.specs.declared.fault.StreamFault.{StreamFault};

/// It does not matter how a stream is cut into pieces. Two pieces, fed in order, give the same messages, answer and
/// rest as both at once, unless memory runs out.
pub fn no_cut_matters()
    ensures messages { (old mid new : List TrainText) (a b r s : List ℕ) →
        Adds old mid a r → Adds mid new (r ++ b) s → Adds old new (a ++ b) s }
    ensures both { (before middle after once : Option (List ℕ)) (a b : List ℕ) (old mid new whole : List TrainText)
        (result answer : Result (Unit {0}) StreamFault) →
        Fed before a old mid (Ok tt) middle → Fed middle b mid new result after → HadMemory result →
        Fed before (a ++ b) old whole answer once → HadMemory answer →
        (whole ≡ new) × (answer ≡ result) × (once ≡ after) }
    ensures fault { (before after once : Option (List ℕ)) (a b : List ℕ) (old new whole : List TrainText)
        (fault : StreamFault) (answer : Result (Unit {0}) StreamFault) →
        Fed before a old new (Err fault) after → HadMemory (Err fault) →
        Fed before (a ++ b) old whole answer once → HadMemory answer →
        (whole ≡ new) × (answer ≡ Err fault) × (once ≡ after) }
{}

/// A stream has at most one meaning: its bytes are messages and then a rest, or messages and then a fault, in one way.
pub fn one_reading()
    ensures messages { (bytes r s : List ℕ) (ms ns : List TrainText) →
        Spell bytes ms r → Spell bytes ns s → IsEnd r → IsEnd s → (ms ≡ ns) × (r ≡ s) }
    ensures rest { (bytes : List ℕ) (fault : MsgFault) → IsRest bytes → ShowsFault bytes fault → ⊥ }
    ensures fault { (bytes : List ℕ) (e f : MsgFault) → ShowsFault bytes e → ShowsFault bytes f → e ≡ f }
{}

/// The kept bytes of a stream are those that `decode_train` calls too short. They begin with no whole message, and are
/// at most 1 022.
pub fn a_rest_is_short()
    ensures no_message { (first later : List ℕ) (m : TrainText) → SpellsTrain first m → IsRest (first ++ later) → ⊥ }
    ensures short { (bytes : List ℕ) → IsRest bytes ↔ (read_train bytes ≡ Err MsgFault.Short) }
    ensures few { (rest : List ℕ) → IsRest rest → length rest < 1023 }
{}

/// The fault of a stream is that of `decode_train` for the shortest first part of the bytes that is not too short.
pub fn a_fault_is_the_first()
    ensures { (bytes : List ℕ) (fault : MsgFault) → ShowsFault bytes fault → IsFirstFault bytes fault }
{}
