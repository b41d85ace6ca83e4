ghost use Rattle.std.specs.Prelude.{◌≡◌, ◌≢◌, ◌<◌, ◌≤◌, ℕ, List, Option, ◌++◌, All, Contains};
ghost use Rattle.serve_workers.specs.declared.writing.reply.Reply.{Reply};
ghost use Rattle.serve_workers.specs.Writing.Lane.{Call, Goes, IsCounted, IsSaidBy, Rises, Serves, let_out, submitted};
ghost use Rattle.serve_workers.specs.Writing.Lane.{taken};

/// Let a connection serve a train from the answer (32) to its initiation on, whose T_TRAIN is `first`. Let `said` be
/// the centre's replies to the train from then on. Let only these, and earlier ones, be submitted. Then, whatever
/// threads call in whatever order, the replies that are released while it serves are a beginning of `said`. They are
/// consecutive, each is released once, and none is left out.
pub fn a_lane_lets_out_a_beginning()
    ensures { (said : List Reply) (first c : ℕ) (serving : Option ℕ) (early : List Reply) (calls : List Call)
        (last : ℕ) (left : List Reply)
        → IsCounted first said → All (IsSaidBy first said) early → All (IsSaidBy first said) (submitted calls)
        → Goes calls first serving early last left → Serves c calls first serving
        → (rest : List Reply) × (said ≡ let_out calls ++ rest) }
{}

/// For any calls in any order, over any connections: each released T_TRAIN is greater than all before.
pub fn a_lane_never_turns_back()
    ensures { (next : ℕ) (serving : Option ℕ) (early : List Reply) (calls : List Call) (last : ℕ) (left : List Reply)
        → Goes calls next serving early last left → Rises next (let_out calls) }
{}

/// For any calls in any order: let a reply of each T_TRAIN from the first turn to `n` be submitted and have room. If
/// none of the replies that are left has its turn, the turn is after `n`. So none of them waits for good.
pub fn no_reply_waits_for_good()
    ensures { (next last n : ℕ) (serving : Option ℕ) (early left : List Reply) (calls : List Call)
        → Goes calls next serving early last left → All (λ reply. reply.message.t_train ≢ last) left
        → ((t : ℕ) → next ≤ t → t ≤ n
        → (reply : Reply) × (reply.message.t_train ≡ t) × Contains (taken calls) reply)
        → n < last }
{}
