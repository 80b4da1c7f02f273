ghost use Rattle.std.specs.Prelude.{◌≡◌, ℕ, ◌+◌, Some, None, Option, List, [], IfOk, IfSome};
ghost use Rattle.mip_words.specs.declared.address.Address.{Address};
ghost use Rattle.mip_words.specs.declared.moment.Moment.{Moment};
ghost use Rattle.mip_bulist.specs.declared.any.Any.{Any};
ghost use Rattle.mip_bulist.specs.declared.row.Row.{Row};
ghost use Rattle.mip_bulist.specs.declared.timer.Timer.{Timer};
ghost use Rattle.mip_bulist.specs.declared.work.Work.{Work};
ghost use Rattle.mip_bulist.specs.Rows.{AreOfDifferentPeers, peer_at, with_row, with_trial, laid, rows_laid, lifted};
ghost use Rattle.mip_bulist.specs.Timers.{number_of, due_work, AreDueFrom, AreInOrder};

/// A row has its peer for ever, whatever is done to the rows.
pub fn a_row_keeps_its_peer()
    ensures made { (row : ℕ) (other : Address) (rows : List Row) → IfSome (peer_at row rows) (λ p. peer_at row (with_row other rows) ≡ Some p) }
    ensures lifted { (row at : ℕ) (trial : Option Any) (rows : List Row) → peer_at row (with_trial at trial rows) ≡ peer_at row rows }
    ensures laid { (row at : ℕ) (trial : Any) (rows : List Row) → peer_at row (rows_laid at trial rows) ≡ peer_at row rows }
{}

/// A trial that is put back is the one that comes out.
pub fn a_trial_put_back_comes_out()
    ensures { (row : ℕ) (trial : Any) (rows : List Row) → IfOk (laid row trial rows) (λ _. lifted row (rows_laid row trial rows) ≡ Some trial) }
{}

/// Two works of one number are the same.
pub fn a_number_is_of_one_work()
    ensures { (a b : Work) → number_of a ≡ number_of b → a ≡ b }
{}

/// Rows that are made and changed by these calls alone are of different peers.
pub fn rows_are_of_different_peers()
    ensures none { AreOfDifferentPeers [] }
    ensures made { (peer : Address) (rows : List Row) → AreOfDifferentPeers rows → AreOfDifferentPeers (with_row peer rows) }
    ensures lifted { (row : ℕ) (trial : Option Any) (rows : List Row) → AreOfDifferentPeers rows → AreOfDifferentPeers (with_trial row trial rows) }
    ensures laid { (row : ℕ) (trial : Any) (rows : List Row) → AreOfDifferentPeers rows → AreOfDifferentPeers (rows_laid row trial rows) }
{}

/// Where `pop` gives nothing, none of the timers is due.
pub fn none_is_due_before_the_first()
    ensures { (now : Moment) (timers : List Timer) → AreInOrder timers → due_work now timers ≡ None → AreDueFrom (now.0 + 1) timers }
{}
