// The next address: one up, and 0 after the top.
ghost use Rattle.std.specs.Prelude.{◌≡◌, ◌<◌};
ghost use Rattle.serial.specs.Address.{next_address};

pub fn next_address(size: u32, address: u32) -> u32
    requires { address < size }
    ensures { result ≡ next_address size address }
{
    if address + 1 < size { address + 1 } else { 0 }
}
