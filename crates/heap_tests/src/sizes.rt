//! Sizes that nobody gives.
use heap::{BadConfig, Config, Sizes};

#[test]
fn default_sizes_make_a_config(rt: HostRuntime) {
    let config = Config::new(Sizes::default()).ok();
    assert_eq!(rt; config.map(|sizes| sizes.block_words()), Some(512));
    let none = Config::new(Sizes {
        steps: 0,
        ..Sizes::default()
    });
    assert_eq!(rt; none, Err(BadConfig));
}
