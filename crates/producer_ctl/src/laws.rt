//! Laws: what a node makes of a producer is a call of it; what bounds the numbers that are routed.
ghost use Rattle.std.specs.Prelude.{◌≡◌, ℕ, List, Some};
ghost use Rattle.yard_model.specs.declared.charter.Sending.{Sending};
ghost use Rattle.yard_model.specs.Node.{Node, ack, request, send_by, route_numbers, send_again};
ghost use Rattle.yard_model.specs.Producer.{to_resend};
ghost use Rattle.producer_ctl.specs.Produced.{acking, asking, queueing, resending, repeating};
ghost use Rattle.producer_ctl.specs.Routed.{calls};
ghost use Rattle.producer_ctl.specs.Within.{RoutesWithin};

/// A law: each rule of a node about a producer is the moves that the call makes, and then each of
/// the numbers that it leaves routed; nothing where the queue isn't held.
pub fn rules_are_calls()
    ensures acks { (p : ℕ) (e : List ℕ) (n : ℕ) (st : Node) → ack p e n st ≡ calls p (acking e n) st }
    ensures requests { (p : ℕ) (e : List ℕ) (n u : ℕ) (st : Node) → request p e n u st ≡ calls p (asking e n u) st }
    ensures sends { (p : ℕ) (x : Sending) (st : Node) → send_by p (Some x) st ≡ calls p (queueing x) st }
    ensures resends { (p : ℕ) (e : List ℕ) (f : ℕ) (st : Node) → route_numbers p e (to_resend e f) st ≡ calls p (resending e f) st }
    ensures repeats { (p : ℕ) (e : List ℕ) (st : Node) → send_again p e st ≡ calls p (repeating e) st }
{}

/// A law: each number that a call leaves to be routed is queued, is above the confirmed number, and is
/// at most what was demanded, or the first that isn't confirmed.
pub fn numbers_are_within()
    ensures sends { (x : Sending) → RoutesWithin (queueing x) }
    ensures requests { (e : List ℕ) (n u : ℕ) → RoutesWithin (asking e n u) }
    ensures acks { (e : List ℕ) (n : ℕ) → RoutesWithin (acking e n) }
    ensures resends { (e : List ℕ) (f : ℕ) → RoutesWithin (resending e f) }
    ensures repeats { (e : List ℕ) → RoutesWithin (repeating e) }
{}
