//! Clause lists of small files.
use crate::spelling::differing;
use std::test::Fail;

const FILES: &[(&str, &str)] = &[
    ("", ""),
    ("1=2.", "\n"),
    ("predicate P()\npredicate Q()\nP() -> Q().", "-1 2 \n"),
    // The conjunction has the name 4.
    (
        "predicate P()\npredicate Q()\npredicate R()\nP() <-> Q() & R().",
        "-4 2 \n-4 3 \n4 -2 -3 \n-1 4 \n1 -2 -3 \n",
    ),
    // A fluent and an event at two times: 1 and 2 are HoldsAt, 3 and 4 ReleasedAt, 5 and 6 Happens. DEC7, DEC9, DEC11 and DEC12
    // come to what the effects leave of them; the last three clauses are the release axiom and what happens.
    (
        "sort agent\n\
         fluent Awake(agent)\n\
         event WakeUp(agent)\n\
         [agent,time] Initiates(WakeUp(agent),Awake(agent),time).\n\
         agent James\n\
         !HoldsAt(Awake(James),0).\n\
         Delta: Happens(WakeUp(James),0).\n\
         completion Delta Happens\n\
         range time 0 1",
        "-1 \n-1 4 2 \n1 4 5 -2 \n-3 5 4 \n3 -4 \n-5 2 \n-5 -4 \n-3 \n5 \n-6 \n",
    ),
    // The same with what holds told in place of what happens.
    (
        "sort agent\n\
         fluent Awake(agent)\n\
         event WakeUp(agent)\n\
         [agent,time] Initiates(WakeUp(agent),Awake(agent),time).\n\
         agent James\n\
         !HoldsAt(Awake(James),0).\n\
         HoldsAt(Awake(James),1).\n\
         range time 0 1",
        "-1 \n2 \n-1 4 2 \n1 4 5 -2 \n-3 5 4 \n3 -4 \n-5 2 \n-5 -4 \n-3 \n",
    ),
    // Two heads under one binder, one of them at the time after: A is 1 and 2, H1 3 and 4, H2 5 and 6. The binder has the first time
    // alone, so H1 at the last time and H2 at the first have no instance.
    (
        "predicate A(time)\n\
         predicate H1(time)\n\
         predicate H2(time)\n\
         A(time).\n\
         Theta: A(time) -> H1(time) & H2(time+1).\n\
         completion Theta H1\n\
         completion Theta H2\n\
         range time 0 1",
        "1 \n2 \n-3 1 \n3 -1 \n-4 \n-5 \n-6 1 \n6 -1 \n",
    ),
];

#[test]
fn of_files(rt: HostRuntime) -> Result<(), Fail> {
    assert_eq!(rt; differing(rt.alloc(), FILES)?.as_str(), "");
    Ok(())
}

/// Two sentences of one predicate give one definition, and an effect that isn't settled has a variable and a definition.
const GROUPS: &[(&str, &str)] = &[
    // P, Q and R are 1, 2 and 3: R is defined as P or Q.
    (
        "predicate P()\npredicate Q()\npredicate R()\nL: P() -> R().\nL: Q() -> R().\ncompletion L R",
        "-3 1 2 \n3 -1 \n3 -2 \n",
    ),
    // One time: 1 is HoldsAt, 2 ReleasedAt, 3 Happens, 4 Initiates. At one time no axiom speaks of the time after.
    (
        "fluent F()\nevent E()\n[time] HoldsAt(F(),time) -> Initiates(E(),F(),time).\nrange time 0 0",
        "-2 \n-4 1 \n4 -1 \n",
    ),
];

#[test]
fn of_groups(rt: HostRuntime) -> Result<(), Fail> {
    assert_eq!(rt; differing(rt.alloc(), GROUPS)?.as_str(), "");
    Ok(())
}
