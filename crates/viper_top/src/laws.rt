ghost use Rattle.viper_top.specs.Orders.{Order};
ghost use Rattle.viper_top.specs.Promises.{HasFixedEnding, HasOneEnding};

/// The contents that names hold lead a command other than `certify` to one ending, whichever it is:
/// its status, its text and the bytes that it places. So where nothing failed, `viper_main` (clause
/// `complete`) gives that ending, or finds no memory. Of a certification several causes may be true,
/// and any of them may be named.
pub fn endings_are_determined()
    ensures { (order : Order) → HasFixedEnding order → HasOneEnding order }
{}
