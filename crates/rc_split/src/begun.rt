//! How many credits the lines of a program give.

ghost use Rattle.std.specs.Prelude.{◌≡◌, ◌≤◌, []};
ghost use Rattle.rc_lang.specs.Views.{IsView, seen};
ghost use Rattle.rc_split.specs.Bags as spec;
ghost use Rattle.rc_split.specs.Bags.{begun};

use rc_lang::view::View;

/// How many credits the pools and threads of a view begin with.
pub fn credits_given(view: View) -> u32
    requires { IsView (seen view) }
    ensures value { result ≡ spec.credits_given (begun (seen view.entry).stock (seen view.entry).threads) }
    ensures few { result ≤ 165888 }
{
    credits_of_pools(view) + credits_of_threads(view)
}

fn credits_of_pools(view: View) -> u32
    requires { IsView (seen view) }
    ensures value { result ≡ spec.credits_given (begun (seen view.entry).stock []) }
    ensures few { result ≤ 34816 }
{
    let mut given = 0;
    let lines = view.stock();
    for line in lines {
        given += line.items.credits;
    }
    given
}

fn credits_of_threads(view: View) -> u32
    requires { IsView (seen view) }
    ensures value { result ≡ spec.credits_given (begun [] (seen view.entry).threads) }
    ensures few { result ≤ 131072 }
{
    let mut given = 0;
    let threads = view.threads();
    for thread in threads {
        given += thread.items.credits;
    }
    given
}
