// Laws of the definitions.
ghost use Rattle.conncheck.specs.OneReply.{RepliesAreOne};

/// Words and files fix the reply: its status and each of its texts.
pub fn replies_are_one()
    ensures { RepliesAreOne }
{}
