// The tags that the tests of a pattern are inside.
use alphabet::letters::Letters;
use pattern::kept::Pattern;
use std::process::Abort;

// Of a pattern, the sets of its tests, and that there is no set behind them.
fn check_sets(rt: &impl Abort, bytes: &[u8], sets: &[u8]) {
    let read = Pattern::read(&mut Letters::new(), bytes);
    assert!(rt; read.is_ok());
    if let Ok(pattern) = read {
        let (front, behind) = pattern.tag_sets().split_at(pattern.tests());
        assert!(rt; front == sets);
        assert!(rt; behind.iter().all(|set| *set == 0));
    }
}

#[test]
fn sets_of_tags(rt: HostRuntime) {
    check_sets(&rt, b"a{b{c}d}{e|f}g", &[0, 1, 3, 1, 4, 4, 0]);
    check_sets(&rt, b"(a|{b}?)c*", &[0, 1, 0]);
    check_sets(&rt, b"{{{{{{{{a}}}}}}}}", &[255]);
    check_sets(
        &rt,
        b"{a}{a}{a}{a}{a}{a}{a}{a}",
        &[1, 2, 4, 8, 16, 32, 64, 128],
    );
    check_sets(&rt, &[b'a'; 64], &[0; 64]);
}
