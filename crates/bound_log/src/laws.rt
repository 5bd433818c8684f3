//! What a log proves. Each function is its contract: it does nothing.
ghost use Rattle.bound_log.specs.Sound.{CheckerIsSound};

/// Whatever text is a log of a network, its bound is a lower bound for each plan that meets the
/// limits. How the text came to be plays no part.
pub fn checker_is_sound()
    ensures { CheckerIsSound }
{}
