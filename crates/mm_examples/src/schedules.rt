use mm_goto::List;
use mm_sched::{Entry, Line, Schedule, read_schedule, write_schedule};
use std::test::Fail;

#[test]
fn neighbouring_steps_are_written_in_one_line(rt: HostRuntime) -> Result<(), Fail> {
    let text =
        "schedule 1\nstep 0\nsteps 0 2\nstep 1\nin 1 -2147483648\nin 1 2147483647\nflush 4294967295\nflush 0 7\nstep 1\nend\n";
    let schedule = read_schedule(rt.alloc(), text)?;
    assert_eq!(rt; schedule.len(), 9);
    let written = write_schedule(rt.alloc(), &schedule)?;
    assert_eq!(rt;
        written.as_str(),
        "schedule 1\nsteps 0 3\nstep 1\nin 1 -2147483648\nin 1 2147483647\nflush 4294967295\nflush 0 7\nstep 1\nend\n"
    );
    Ok(())
}

#[test]
fn long_runs_fill_lines(rt: HostRuntime) -> Result<(), Fail> {
    let item = Entry::Step(0);
    let other = Entry::Step(1);
    let lines = vec![in rt.alloc();
        Line {
            item,
            count: 4_294_967_294
        },
        Line {
            item: other,
            count: 0
        },
        Line { item, count: 3 },
    ]?;
    let schedule = Schedule {
        lines: List::new(lines),
    };
    assert_eq!(rt; schedule.len(), 4_294_967_297);
    let written = write_schedule(rt.alloc(), &schedule)?;
    assert_eq!(rt;
        written.as_str(),
        "schedule 1\nsteps 0 4294967295\nsteps 0 2\nend\n"
    );
    Ok(())
}
