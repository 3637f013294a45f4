// The law in another form: the function does nothing, and its contract is the law.
ghost use Rattle.signal_value.specs.Law.{ImagesFollow};

pub fn images_follow_the_law()
    ensures { ImagesFollow }
{}
