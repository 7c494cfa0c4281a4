// Laws of what words ask for.
ghost use Rattle.xn_command.specs.Refusals.{RefusedExactly};

/// Words ask for nothing exactly where one of the listed things is wrong with them.
pub fn refusals()
    ensures { RefusedExactly }
{}
