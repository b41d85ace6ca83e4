//! Laws of all spellings, independent of the code that reads or writes them.

ghost use Rattle.std.specs.Prelude.{◌≡◌, ℕ, ◌<◌, ◌++◌, List};
ghost use Rattle.rbc_spec.specs.Message.{TrackMessage};
ghost use Rattle.rbc_msgs.specs.TrainText.{TrainText};
ghost use Rattle.rbc_msgs.specs.Layout.{length_limit, IsBytes};
ghost use Rattle.rbc_msgs.specs.TrainSpelling.{train_length, TrainFits, SpellsTrain};
ghost use Rattle.rbc_msgs.specs.TrackSpelling.{TrackFits, SpellsTrack};

/// Each message whose values have room in their fields has a spelling, if it takes at most 1 023 bytes.
pub fn each_message_has_a_spelling()
    ensures train { (m : TrainText) → TrainFits m → train_length m < length_limit →
        (bytes : List ℕ) × IsBytes bytes × SpellsTrain bytes m }
    ensures track { (m : TrackMessage) → TrackFits m → (bytes : List ℕ) × IsBytes bytes × SpellsTrack bytes m }
{}

/// A message has at most one spelling.
pub fn one_spelling()
    ensures train { (a b : List ℕ) (m : TrainText) →
        IsBytes a → IsBytes b → SpellsTrain a m → SpellsTrain b m → a ≡ b }
    ensures track { (a b : List ℕ) (m : TrackMessage) →
        IsBytes a → IsBytes b → SpellsTrack a m → SpellsTrack b m → a ≡ b }
{}

/// Bytes spell at most one message.
pub fn one_message()
    ensures train { (a : List ℕ) (m n : TrainText) → SpellsTrain a m → SpellsTrain a n → m ≡ n }
    ensures track { (a : List ℕ) (m n : TrackMessage) → SpellsTrack a m → SpellsTrack a n → m ≡ n }
{}

/// No spelling is the start of another, so the end of each of several consecutive messages is known.
pub fn no_spelling_begins_another()
    ensures train { (a b x y : List ℕ) (m n : TrainText) →
        SpellsTrain a m → SpellsTrain b n → a ++ x ≡ b ++ y → (a ≡ b) × (x ≡ y) }
    ensures track { (a b x y : List ℕ) (m n : TrackMessage) →
        SpellsTrack a m → SpellsTrack b n → a ++ x ≡ b ++ y → (a ≡ b) × (x ≡ y) }
{}
