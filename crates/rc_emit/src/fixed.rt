//! What each of the C programs has.

/// Its beginning: what it includes, and what its statements are made of.
pub const BEGINNING: &str = "\
/* Written by `ringcheck c` from a model that it accepts. It needs POSIX threads and liburing 2.2 or later:
   cc -std=c11 -Wall -Wextra -O2 THIS.c -luring -lpthread
   With -DRINGCHECK_LOG=N, `--log FILE` has the first N events written to FILE, and the program ends after them. */
#define _GNU_SOURCE
#include <errno.h>
#include <fcntl.h>
#include <inttypes.h>
#include <liburing.h>
#include <pthread.h>
#include <stdarg.h>
#include <stdbool.h>
#include <stdint.h>
#include <stdio.h>
#include <stdlib.h>
#include <string.h>
#include <unistd.h>

_Static_assert(EAGAIN == 11, \"the model has -11 where no completion is there\");

/* Sums and differences of 64 bits, wrapping. */
#define SUM(a, b) ((int64_t)((uint64_t)(a) + (uint64_t)(b)))
#define DIFFERENCE(a, b) ((int64_t)((uint64_t)(a) - (uint64_t)(b)))

";

/// The ring, and its one lock.
pub const RING_LOCK: &str = "\
/* The ring, and the lock that guards it and the pool. */
static struct io_uring ring;
static pthread_mutex_t ring_lock;

";

/// The ring, and the locks of its sides.
pub const SIDE_LOCKS: &str = "\
/* The ring, and the locks of its sides: who takes both takes that of the completion side first. */
static struct io_uring ring;
static pthread_mutex_t cq_lock;
static pthread_mutex_t sq_lock;

";

/// What the calls of its statements are made of.
pub const CALLS: &str = "\
/* Ends the program if a call of this line of the model answers what it never does in an accepted program. */
__attribute__((unused)) _Noreturn static void stop(int line, const char *call, long answer)
{
    fprintf(stderr, \"line %d: %s answers %ld\\n\", line, call, answer);
    exit(EXIT_FAILURE);
}

/* Ends the program if it can't begin. */
_Noreturn static void fail(const char *what, int error)
{
    fprintf(stderr, \"%s: %s\\n\", what, strerror(error));
    exit(EXIT_FAILURE);
}

/* A call that answers 0. */
#define MUST(line, call) \\
    do { \\
        int answer_ = (call); \\
        if (answer_ != 0) \\
            stop(line, #call, answer_); \\
    } while (0)
";

/// What is written of its events where it is compiled so.
pub const LOG: &str = "\
static FILE *log_file;
static pthread_mutex_t log_lock = PTHREAD_MUTEX_INITIALIZER;
static uint64_t log_count;
static unsigned log_seen;

/* Writes one event under the next number. */
__attribute__((unused, format(printf, 1, 2))) static void log_event(const char *words, ...)
{
    va_list values;

    if (log_file == NULL)
        return;
    pthread_mutex_lock(&log_lock);
    log_count++;
    fprintf(log_file, \"%\" PRIu64 \" \", log_count);
    va_start(values, words);
    vfprintf(log_file, words, values);
    va_end(values);
    putc('\\n', log_file);
    if (log_count >= RINGCHECK_LOG)
        exit(EXIT_SUCCESS);
    pthread_mutex_unlock(&log_lock);
}

/* The byte that fills what a read moved; 0 where nothing was read, and -1 where these bytes aren't alike. */
static int log_fill(uint64_t data, int moved)
{
    const struct filling *filling;
    int at;

    for (filling = fillings; filling->bytes != NULL; filling++) {
        if (filling->data != data || !filling->is_read || moved <= 0)
            continue;
        for (at = 1; at < moved; at++)
            if (filling->bytes[at] != filling->bytes[0])
                return -1;
        return filling->bytes[0];
    }
    return 0;
}

/* Notes what a request is whose user data doesn't say that. */
__attribute__((unused)) static void note_request(const struct io_uring_sqe *sqe)
{
    struct filling *filling;

    for (filling = fillings; filling->bytes != NULL; filling++)
        if (filling->data == sqe->user_data)
            filling->is_read = sqe->opcode == IORING_OP_READ && sqe->addr == (uint64_t)(uintptr_t)filling->bytes;
}

/* Writes each completion that is in the ring and wasn't seen before, with the byte that fills what it moved. */
__attribute__((unused)) static void log_completions(void)
{
    struct io_uring_cqe *cqe;
    unsigned head;

    io_uring_for_each_cqe(&ring, head, cqe) {
        if ((int)(head - log_seen) < 0)
            continue;
        log_event(\"kernel %\" PRIu64 \" %d %d\", (uint64_t)cqe->user_data, cqe->res,
                  log_fill(cqe->user_data, cqe->res));
        log_seen = head + 1;
    }
}

#define EVENT(...) log_event(__VA_ARGS__)
#define SEE_COMPLETIONS() log_completions()
#define NOTE_REQUEST(sqe) note_request(sqe)
#else
#define EVENT(...) ((void)0)
#define SEE_COMPLETIONS() ((void)0)
#define NOTE_REQUEST(sqe) ((void)0)
#endif
";

/// What writes the events of threads with copies, where some have: the copy's number comes first.
pub const COPY_LOG: &str = "
#ifdef RINGCHECK_LOG
#define COPY_EVENT(words, ...) log_event(words, copy, ##__VA_ARGS__)
#else
#define COPY_EVENT(...) ((void)0)
#endif
";

/// How the function of a thread begins, after its name, and how it ends.
pub const THREAD_BEGINNING: &str = "(void *nothing)
{
    struct io_uring_sqe *sqe = NULL;
    struct io_uring_cqe *cqe = NULL;
    int answer = 0;
    bool yes = false;
";

pub const THREAD_BODY: &str = "
    (void)nothing, (void)sqe, (void)cqe, (void)answer, (void)yes;
";

/// The same of a thread with copies, which is given its number.
pub const COPY_BEGINNING: &str = "(void *number)
{
    const unsigned copy = *(const unsigned *)number;
    struct io_uring_sqe *sqe = NULL;
    struct io_uring_cqe *cqe = NULL;
    int answer = 0;
    bool yes = false;
";

pub const COPY_BODY: &str = "
    (void)copy, (void)sqe, (void)cqe, (void)answer, (void)yes;
";

pub const THREAD_END: &str = "    return NULL;
}
";

/// How the list of the threads begins.
pub const THREADS: &str = "
/* The threads, in text order. */
static void *(*const bodies[])(void *) = {
";

/// How the list of their numbers begins, where some are copies.
pub const NUMBERS: &str = "
/* The number of each among the copies of its line. */
static unsigned numbers[] = {
";

/// What opens the files.
pub const FILES_OPENED: &str = "
/* A file that is opened for reading and writing, or only for reading if it can't be written. */
static int open_path(const char *path)
{
    int opened = open(path, O_RDWR | O_CLOEXEC);

    if (opened < 0)
        opened = open(path, O_RDONLY | O_CLOEXEC);
    if (opened < 0)
        fail(path, errno);
    return opened;
}

/* A new file of so many zero bytes, which is gone when the program ends. */
static int open_new(long length)
{
    FILE *made = tmpfile();

    if (made == NULL || ftruncate(fileno(made), length) != 0)
        fail(\"a temporary file\", errno);
    return fileno(made);
}

/* Opens the file that a word of the command line names, as 3=PATH. */
static void open_named(const char *word)
{
    const struct named_file *file;
    char *path;
    long number = strtol(word, &path, 10);

    for (file = files; file->opened != NULL; file++) {
        if (path != word && *path == '=' && file->number == number) {
            *file->opened = open_path(path + 1);
            return;
        }
    }
    fail(word, EINVAL);
}

/* Opens the files: new ones if no word names another. */
static void open_files(char **words)
{
    const struct named_file *file;

    for (file = files; file->opened != NULL; file++)
        *file->opened = -1;
    for (; *words != NULL; words++)
        open_named(*words);
    for (file = files; file->opened != NULL; file++)
        if (*file->opened < 0)
            *file->opened = open_new(file->length);
}

";

/// What opens the one lock.
pub const LOCK_OPENED: &str = "\
static void open_lock(void)
{
    pthread_mutexattr_t kind;
    int error = pthread_mutexattr_init(&kind);

    if (error == 0)
        error = pthread_mutexattr_settype(&kind, PTHREAD_MUTEX_ERRORCHECK);
    if (error == 0)
        error = pthread_mutex_init(&ring_lock, &kind);
    if (error != 0)
        fail(\"pthread_mutex_init\", error);
}

";

/// What opens a mutex, and the head of what opens all.
pub const MUTEX_OPENED: &str = "\
static void open_mutex(pthread_mutex_t *mutex)
{
    pthread_mutexattr_t kind;
    int error = pthread_mutexattr_init(&kind);

    if (error == 0)
        error = pthread_mutexattr_settype(&kind, PTHREAD_MUTEX_ERRORCHECK);
    if (error == 0)
        error = pthread_mutex_init(mutex, &kind);
    if (error != 0)
        fail(\"pthread_mutex_init\", error);
}

static void open_lock(void)
{
";

/// The end of a program: what opens the ring, and starts the threads, up to what they are given.
pub const END: &str = "\
static void open_ring(void)
{
    struct io_uring_params params;
    int error;

    memset(&params, 0, sizeof params);
    params.flags = IORING_SETUP_CQSIZE;
    params.cq_entries = COMPLETION_ENTRIES;
    error = io_uring_queue_init_params(ENTRIES, &ring, &params);
    if (error < 0)
        fail(\"io_uring_queue_init_params\", -error);
    /* An older kernel's library keeps one user data for itself. */
    if (!(params.features & IORING_FEAT_EXT_ARG))
        fail(\"io_uring_queue_init_params\", ENOSYS);
}

/* The words of the command line after what is said of the log. */
static char **open_log(char **words)
{
#ifdef RINGCHECK_LOG
    if (words[0] != NULL && strcmp(words[0], \"--log\") == 0 && words[1] != NULL) {
        log_file = fopen(words[1], \"we\");
        if (log_file == NULL)
            fail(words[1], errno);
        setvbuf(log_file, NULL, _IOLBF, BUFSIZ);
        return words + 2;
    }
#endif
    return words;
}

int main(int count, char **words)
{
    pthread_t threads[sizeof bodies / sizeof *bodies];
    int at;
    int error;

    open_files(open_log(words + (count > 0)));
    open_lock();
    open_ring();
    for (at = 0; bodies[at] != NULL; at++) {
        error = pthread_create(&threads[at], NULL, bodies[at], ";

/// What is after that.
pub const STARTED: &str = ");
        if (error != 0)
            fail(\"pthread_create\", error);
    }
    for (at = 0; bodies[at] != NULL; at++) {
        error = pthread_join(threads[at], NULL);
        if (error != 0)
            fail(\"pthread_join\", error);
    }
    io_uring_queue_exit(&ring);
    return EXIT_SUCCESS;
}
";
