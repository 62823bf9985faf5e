// Worked cases, as theorems over the definitions that the library is proved against.
#![tactic(auto)]

ghost use Rattle.std.specs.Prelude.{◌≡◌};
ghost use Rattle.cases.specs.ServiceTables.{ExampleIsRead};
ghost use Rattle.cases.specs.Resolved.{RootIsKept, SchemeAloneIsIllegal, MemberIsRewritten};

// A case that holds counts 1.
fn example_is_read() -> u8
    ensures count { result ≡ 1 }
    ensures holds { ExampleIsRead }
{
    1
}

fn root_is_kept() -> u8
    ensures count { result ≡ 1 }
    ensures holds { RootIsKept }
{
    1
}

fn scheme_alone_is_illegal() -> u8
    ensures count { result ≡ 1 }
    ensures holds { SchemeAloneIsIllegal }
{
    1
}

fn member_is_rewritten() -> u8
    ensures count { result ≡ 1 }
    ensures holds { MemberIsRewritten }
{
    1
}

// How many cases of service tables there are. Its promises say that each of them holds.
pub fn worked_cases() -> u8
    ensures count { result ≡ 1 }
    ensures example { ExampleIsRead }
{
    example_is_read()
}

// How many cases of references and of rewritten URIs there are. Its promises say that each of them holds.
pub fn worked_uris() -> u8
    ensures count { result ≡ 3 }
    ensures root { RootIsKept }
    ensures scheme { SchemeAloneIsIllegal }
    ensures member { MemberIsRewritten }
{
    root_is_kept() + scheme_alone_is_illegal() + member_is_rewritten()
}
